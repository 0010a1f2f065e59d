// The end of a booking: LIFO stores the completed head, FIFO lets the stealer head catch up with the worker head.
ghost use Rattle.std.specs.Prelude.{◌≡◌};
ghost use Rattle.words.specs.Edition.{width};
ghost use Rattle.tables.specs.Row as Y;
ghost use Rattle.tables.specs.Table as T;
ghost use Rattle.tables.specs.Tables as Ts;

use super::row;
use tables::access::{Access, Context, Next, Seen, Wanted};
use tables::answer::{Answer, Change};
use tables::place::{ClosePlace, ClosingCall, Place};
use tables::state::Kind;

pub fn first(kind: Kind, head: u32) -> ClosePlace
    ensures { result ≡ T.closing kind head }
{
    match kind {
        Kind::Lifo => ClosePlace::StoreCompleted { head },
        Kind::Fifo => ClosePlace::LoadHeads,
    }
}

fn answer_of(call: ClosingCall) -> Answer
    ensures { result ≡ T.answer_of call }
{
    match call {
        ClosingCall::Steal { count, .. } => Answer::Stolen(count),
        ClosingCall::Take { token, count, .. } => Answer::Taken { token, count },
        ClosingCall::Next(token) => Answer::Item(token),
        ClosingCall::Drop => Answer::Closed,
    }
}

fn was_closed(s: Context, call: ClosingCall, seen: Seen) -> Next
    ensures { result ≡ Ts.was_closed s call seen }
{
    if seen.stored {
        row::ends(s, answer_of(call), Some(Change::Closed))
    } else {
        row::on(
            s,
            Place::Close(
                call,
                ClosePlace::CasHeads {
                    packed: seen.packed,
                },
            ),
            None,
        )
    }
}

pub fn wants(place: ClosePlace) -> Wanted
    ensures { (s : Context) (call : ClosingCall) → result ≡ Y.wanted (Ts.close_row width s call place) }
{
    match place {
        ClosePlace::StoreCompleted { head } => row::source(Access::StoreCompleted(head)),
        ClosePlace::LoadHeads => row::source(Access::LoadPacked),
        ClosePlace::CasHeads { packed } => {
            let old = words::unpack(packed);
            row::source(Access::Cas {
                old: packed,
                new: words::pack(old.high, old.high),
            })
        }
    }
}

pub fn advance(call: ClosingCall, place: ClosePlace, s: Context, seen: Seen) -> Next
    ensures { result
        ≡ (Ts.close_row width s call place).after seen }
{
    match place {
        ClosePlace::StoreCompleted { .. } => row::ends(s, answer_of(call), Some(Change::Closed)),
        ClosePlace::LoadHeads => row::on(
            s,
            Place::Close(
                call,
                ClosePlace::CasHeads {
                    packed: seen.packed,
                },
            ),
            None,
        ),
        ClosePlace::CasHeads { .. } => was_closed(s, call, seen),
    }
}
