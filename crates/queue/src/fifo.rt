// FIFO's tables: the loads of push, extend and spare; the destination loads of steal and take; pop; empty; booking.
ghost use Rattle.std.specs.Prelude.{◌≡◌};
ghost use Rattle.words.specs.Edition.{width};
ghost use Rattle.tables.specs.Row as Y;
ghost use Rattle.tables.specs.Access as X;
ghost use Rattle.tables.specs.FifoTable as T;

use super::{counting, own, row};
use tables::access::{Access, Context, Next, Seen, Wanted};
use tables::answer::{Answer, Change};
use tables::place::{BookPlace, BookingCall, FifoPlace, OwnPlace, Place};
use words::Position;

// The stealer head follows the worker head only where no booking is open.
fn popped_heads(packed: u64) -> u64
    ensures { result ≡ T.popped_heads width packed }
{
    let old = words::unpack(packed);
    let head = words::add(old.high, 1);
    if old.high == old.low {
        words::pack(head, words::add(old.low, 1))
    } else {
        words::pack(head, old.low)
    }
}

pub fn wants(place: FifoPlace) -> Wanted
    ensures { (s : Context) → result ≡ Y.wanted (T.fifo_row width s place) }
{
    match place {
        FifoPlace::LoadPacked(_) => row::own(Access::LoadPacked),
        FifoPlace::LoadTail { .. } => row::own(Access::LoadPushes),
        FifoPlace::DestTail(_) => row::own(Access::LoadPushes),
        FifoPlace::DestPacked { .. } => row::own(Access::LoadPacked),
        FifoPlace::PopPacked => row::own(Access::LoadPacked),
        FifoPlace::PopTail { .. } => row::own(Access::LoadPushes),
        FifoPlace::PopCas { packed } => row::own(Access::Cas {
            old: packed,
            new: popped_heads(packed),
        }),
        FifoPlace::EmptyPacked => row::own(Access::LoadPacked),
        FifoPlace::EmptyTail { .. } => row::own(Access::LoadPushes),
    }
}

// Check if the queue is empty.
fn pop_test(s: Context, packed: u64, tail: u32) -> Next
    ensures { result ≡ T.fifo_pop_test width s packed tail }
{
    let old = words::unpack(packed);
    if tail == old.high {
        row::ends(s, Answer::None, None)
    } else {
        row::on(s, Place::Fifo(FifoPlace::PopCas { packed }), None)
    }
}

// We lost the race to a stealer or the exchange failed spuriously: back to the tail load.
fn popped(s: Context, packed: u64, seen: Seen) -> Next
    ensures { result ≡ T.fifo_popped width s packed seen }
{
    if seen.stored {
        let old = words::unpack(packed);
        let at = Position(old.high);
        row::on(
            s,
            Place::Own(OwnPlace::PopRead { at }),
            Some(Change::Popped),
        )
    } else {
        row::on(
            s,
            Place::Fifo(FifoPlace::PopTail {
                packed: seen.packed,
            }),
            None,
        )
    }
}

fn empty_test(s: Context, packed: u64, tail: u32) -> Next
    ensures { result ≡ T.fifo_empty width s packed tail }
{
    let old = words::unpack(packed);
    row::ends(s, own::yes_or_no(tail == old.high), None)
}

pub fn advance(place: FifoPlace, s: Context, seen: Seen) -> Next
    ensures { result ≡ (T.fifo_row width s place).after seen }
{
    match place {
        FifoPlace::LoadPacked(call) => {
            row::on(
                s,
                Place::Fifo(FifoPlace::LoadTail {
                    call,
                    packed: seen.packed,
                }),
                None,
            )
        }
        FifoPlace::LoadTail { call, packed } => {
            let old = words::unpack(packed);
            own::filled(s, call, seen.word, 0, seen.word, old.low)
        }
        FifoPlace::DestTail(transfer) => {
            row::on(
                s,
                Place::Fifo(FifoPlace::DestPacked {
                    transfer,
                    tail: seen.word,
                }),
                None,
            )
        }
        FifoPlace::DestPacked { transfer, tail } => {
            let old = words::unpack(seen.packed);
            own::brought(s, transfer, tail, tail, old.low)
        }
        FifoPlace::PopPacked => row::on(
            s,
            Place::Fifo(FifoPlace::PopTail {
                packed: seen.packed,
            }),
            None,
        ),
        FifoPlace::PopTail { packed } => pop_test(s, packed, seen.word),
        FifoPlace::PopCas { packed } => popped(s, packed, seen),
        FifoPlace::EmptyPacked => row::on(
            s,
            Place::Fifo(FifoPlace::EmptyTail {
                packed: seen.packed,
            }),
            None,
        ),
        FifoPlace::EmptyTail { packed } => empty_test(s, packed, seen.word),
    }
}

// Bail out if both heads differ because it means another stealing operation is ongoing.
pub fn heads_test(s: Context, call: BookingCall, packed: u64) -> Next
    ensures { result ≡ T.heads_test width s call packed }
{
    let old = words::unpack(packed);
    if old.high == old.low {
        row::on(s, Place::Book(call, BookPlace::FifoTail { packed }), None)
    } else {
        row::ends(s, Answer::Busy, None)
    }
}

// The tail load: how many are there, and how many of them to book.
pub fn counted(s: Context, call: BookingCall, packed: u64, tail: u32) -> Next
    ensures { result ≡ (T.fifo_tail_row width s call packed).after (X.saw_word tail) }
{
    let old = words::unpack(packed);
    let n = words::sub(tail, old.high);
    let Some(count) = counting::some_of(s.mark, call, n) else {
        return row::ends(s, Answer::Empty, None);
    };
    row::on(
        s,
        Place::Book(call, BookPlace::FifoCas { packed, count }),
        None,
    )
}

pub fn booked(s: Context, call: BookingCall, packed: u64, count: u32, seen: Seen) -> Next
    ensures { result ≡ T.fifo_booked width s call packed count seen }
{
    if seen.stored {
        let old = words::unpack(packed);
        counting::booked(s, call, old.high, count)
    } else {
        heads_test(s, call, seen.packed)
    }
}
