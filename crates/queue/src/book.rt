// The rows of a booking, by the source's kind.
ghost use Rattle.std.specs.Prelude.{◌≡◌};
ghost use Rattle.words.specs.Edition.{width};
ghost use Rattle.tables.specs.Row as Y;
ghost use Rattle.tables.specs.Tables as T;

use super::{fifo, lifo, row};
use tables::access::{Access, Context, Next, Seen, Wanted};
use tables::place::{BookPlace, BookingCall, Place};

pub fn wants(place: BookPlace) -> Wanted
    ensures { (s : Context) (call : BookingCall) → result ≡ Y.wanted (T.book_row width s call place) }
{
    match place {
        BookPlace::LifoPacked => row::source(Access::LoadPacked),
        BookPlace::LifoCompleted { .. } => row::source(Access::LoadCompleted),
        BookPlace::LifoPushes { .. } => row::source(Access::LoadPushes),
        BookPlace::LifoCas { packed, count, .. } => {
            let old = words::unpack(packed);
            row::source(Access::Cas {
                old: packed,
                new: words::pack(old.high, words::add(old.low, count)),
            })
        }
        BookPlace::FifoPacked => row::source(Access::LoadPacked),
        BookPlace::FifoTail { .. } => row::source(Access::LoadPushes),
        BookPlace::FifoCas { packed, count } => {
            let old = words::unpack(packed);
            row::source(Access::Cas {
                old: packed,
                new: words::pack(words::add(old.high, count), old.low),
            })
        }
    }
}

pub fn advance(call: BookingCall, place: BookPlace, s: Context, seen: Seen) -> Next
    ensures { result
        ≡ (T.book_row width s call place).after seen }
{
    match place {
        BookPlace::LifoPacked => row::on(
            s,
            Place::Book(
                call,
                BookPlace::LifoCompleted {
                    packed: seen.packed,
                },
            ),
            None,
        ),
        BookPlace::LifoCompleted { packed } => lifo::completed_test(s, call, packed, seen.word),
        BookPlace::LifoPushes { packed, completed } => lifo::counted(
            s, call, packed, completed, seen.word,
        ),
        BookPlace::LifoCas {
            packed,
            completed,
            count,
        } => lifo::booked(s, call, packed, completed, count, seen),
        BookPlace::FifoPacked => fifo::heads_test(s, call, seen.packed),
        BookPlace::FifoTail { packed } => fifo::counted(s, call, packed, seen.word),
        BookPlace::FifoCas { packed, count } => fifo::booked(s, call, packed, count, seen),
    }
}
