// LIFO's tables: the loads that push, extend, spare, steal and take begin with; pop; empty; booking.
ghost use Rattle.std.specs.Prelude.{◌≡◌};
ghost use Rattle.words.specs.Edition.{width};
ghost use Rattle.tables.specs.Row as Y;
ghost use Rattle.tables.specs.Access as X;
ghost use Rattle.tables.specs.LifoTable as T;

use super::{counting, own, row};
use tables::access::{Access, Context, Next, Seen, Wanted};
use tables::answer::{Answer, Change};
use tables::place::{BookPlace, BookingCall, LifoPlace, OwnPlace, Place, RoomCall};
use words::Position;

pub fn wants(place: LifoPlace) -> Wanted
    ensures { (s : Context) → result ≡ Y.wanted (T.lifo_row width s place) }
{
    match place {
        LifoPlace::LoadPushes(_) => row::own(Access::LoadPushes),
        LifoPlace::LoadPacked { .. } => row::own(Access::LoadPacked),
        LifoPlace::LoadCompleted { .. } => row::own(Access::LoadCompleted),
        LifoPlace::PopPacked => row::own(Access::LoadPacked),
        LifoPlace::PopPushes { .. } => row::own(Access::LoadPushes),
        LifoPlace::PopCas { packed, .. } => {
            let old = words::unpack(packed);
            row::own(Access::Cas {
                old: packed,
                new: words::pack(words::add(old.high, 1), old.low),
            })
        }
        LifoPlace::EmptyPushes => row::own(Access::LoadPushes),
        LifoPlace::EmptyPacked { .. } => row::own(Access::LoadPacked),
    }
}

// The words are loaded: tail = push count - pop count.
fn loaded(s: Context, call: RoomCall, pushes: u32, packed: u64, head: u32) -> Next
    ensures { result ≡ T.lifo_loaded width s call pushes packed head }
{
    let old = words::unpack(packed);
    let tail = words::sub(pushes, old.high);
    match call {
        RoomCall::Owner(owner) => own::filled(s, owner, pushes, old.high, tail, head),
        RoomCall::Transfer(transfer) => own::brought(s, transfer, pushes, tail, head),
    }
}

// Check if the queue is empty.
fn pop_test(s: Context, packed: u64, tail: u32) -> Next
    ensures { result ≡ T.pop_test width s packed tail }
{
    let old = words::unpack(packed);
    if tail == old.low {
        row::ends(s, Answer::None, None)
    } else {
        row::on(s, Place::Lifo(LifoPlace::PopCas { packed, tail }), None)
    }
}

// After a failed exchange the head is the new one, and the tail is kept.
fn popped(s: Context, tail: u32, seen: Seen) -> Next
    ensures { result ≡ T.lifo_popped width s tail seen }
{
    if seen.stored {
        let at = Position(words::sub(tail, 1));
        row::on(
            s,
            Place::Own(OwnPlace::PopRead { at }),
            Some(Change::Popped),
        )
    } else {
        pop_test(s, seen.packed, tail)
    }
}

fn empty_test(s: Context, pushes: u32, packed: u64) -> Next
    ensures { result ≡ T.lifo_empty width s pushes packed }
{
    let old = words::unpack(packed);
    let tail = words::sub(pushes, old.high);
    row::ends(s, own::yes_or_no(tail == old.low), None)
}

fn counted_pop(s: Context, packed: u64, pushes: u32) -> Next
    ensures { result ≡ T.pop_test width s packed (T.tail_of width pushes packed) }
{
    let old = words::unpack(packed);
    pop_test(s, packed, words::sub(pushes, old.high))
}

pub fn advance(place: LifoPlace, s: Context, seen: Seen) -> Next
    ensures { result ≡ (T.lifo_row width s place).after seen }
{
    match place {
        LifoPlace::LoadPushes(call) => {
            row::on(
                s,
                Place::Lifo(LifoPlace::LoadPacked {
                    call,
                    pushes: seen.word,
                }),
                None,
            )
        }
        LifoPlace::LoadPacked { call, pushes } => {
            row::on(
                s,
                Place::Lifo(LifoPlace::LoadCompleted {
                    call,
                    pushes,
                    packed: seen.packed,
                }),
                None,
            )
        }
        LifoPlace::LoadCompleted {
            call,
            pushes,
            packed,
        } => loaded(s, call, pushes, packed, seen.word),
        LifoPlace::PopPacked => row::on(
            s,
            Place::Lifo(LifoPlace::PopPushes {
                packed: seen.packed,
            }),
            None,
        ),
        LifoPlace::PopPushes { packed } => counted_pop(s, packed, seen.word),
        LifoPlace::PopCas { tail, .. } => popped(s, tail, seen),
        LifoPlace::EmptyPushes => row::on(
            s,
            Place::Lifo(LifoPlace::EmptyPacked { pushes: seen.word }),
            None,
        ),
        LifoPlace::EmptyPacked { pushes } => empty_test(s, pushes, seen.packed),
    }
}

// Bail out if both heads differ because it means another stealing operation is ongoing.
pub fn completed_test(s: Context, call: BookingCall, packed: u64, completed: u32) -> Next
    ensures { result ≡ T.completed_test width s call packed completed }
{
    let old = words::unpack(packed);
    if completed == old.low {
        row::on(
            s,
            Place::Book(call, BookPlace::LifoPushes { packed, completed }),
            None,
        )
    } else {
        row::ends(s, Answer::Busy, None)
    }
}

// The push count is loaded: how many are there, and how many of them to book.
pub fn counted(s: Context, call: BookingCall, packed: u64, completed: u32, pushes: u32) -> Next
    ensures { result ≡ (T.lifo_pushes_row width s call packed completed).after (X.saw_word pushes) }
{
    let old = words::unpack(packed);
    let n = words::sub(words::sub(pushes, old.high), old.low);
    let Some(count) = counting::some_of(s.mark, call, n) else {
        return row::ends(s, Answer::Empty, None);
    };
    row::on(
        s,
        Place::Book(
            call,
            BookPlace::LifoCas {
                packed,
                completed,
                count,
            },
        ),
        None,
    )
}

// The remembered completed head is compared with the new booked head, not loaded again.
pub fn booked(
    s: Context,
    call: BookingCall,
    packed: u64,
    completed: u32,
    count: u32,
    seen: Seen,
) -> Next
    ensures { result ≡ T.lifo_booked width s call packed completed count seen }
{
    if seen.stored {
        let old = words::unpack(packed);
        counting::booked(s, call, old.low, count)
    } else {
        completed_test(s, call, seen.packed, completed)
    }
}
