// How many to book, and what a booking comes to: shared by steal, take and drain, and by both kinds.
ghost use Rattle.std.specs.Prelude.{◌≡◌, eqb, None, Some};
ghost use Rattle.words.specs.Edition.{width};
ghost use Rattle.words.specs.Word.{least_of, pick};
ghost use Rattle.tables.specs.Rule as R;
ghost use Rattle.tables.specs.Table as T;

use super::row;
use tables::access::{Context, Next};
use tables::answer::{Answer, Change};
use tables::call::{Mark, Rule};
use tables::place::{BookedTokens, BookingCall, MovePlace, Place, Transfer};
use tables::state::Drain;

// 0 where the mark carries none, as the definition says: a step that wants a number and brings none is refused before.
fn carried(mark: Mark) -> u64
    ensures { result ≡ R.carried mark }
{
    if let Mark::Carry(n) = mark { n } else { 0 }
}

// What the rule asks for, of n seen.
fn ruled(rule: Rule, mark: Mark, n: u32) -> u64
    ensures { result ≡ R.ruled rule mark n }
{
    match rule {
        Rule::All => n as u64,
        Rule::Half => (n / 2) as u64,
        Rule::Fixed(k) => k,
        Rule::Given => carried(mark),
    }
}

pub fn rule_of(call: BookingCall) -> Rule
    ensures { result ≡ T.rule_of call }
{
    match call {
        BookingCall::Transfer(transfer, _) => transfer.rule,
        BookingCall::Drain(rule) => rule,
    }
}

// A take keeps its last token in hand, so it has room for one more.
fn room_for(which: Transfer, room: u32) -> u32
    ensures { result ≡ T.room_for width which room }
{
    match which {
        Transfer::Steal => room,
        Transfer::Take => words::add(room, 1),
    }
}

fn limit_of(call: BookingCall) -> u32
    ensures { result ≡ T.limit_of width call }
{
    match call {
        BookingCall::Transfer(transfer, dest) => room_for(transfer.transfer, dest.room),
        BookingCall::Drain(_) => words::largest(),
    }
}

// How many to book, of n seen.
pub fn count_of(mark: Mark, call: BookingCall, n: u32) -> u32
    ensures { result ≡ least_of (R.ruled (T.rule_of call) mark n) (T.limit_of width call) n }
{
    words::least(ruled(rule_of(call), mark, n), limit_of(call), n)
}

// How many to book, of n seen, if any: nothing may be there, be asked for or have room.
pub fn some_of(mark: Mark, call: BookingCall, n: u32) -> Option<u32>
    ensures { result ≡ pick (eqb n 0) None (pick (eqb (least_of (R.ruled (T.rule_of call) mark n) (T.limit_of width call) n) 0) None
        (Some (least_of (R.ruled (T.rule_of call) mark n) (T.limit_of width call) n))) }
{
    if n == 0 {
        return None;
    }
    let count = count_of(mark, call, n);
    if count == 0 { None } else { Some(count) }
}

pub fn booked(s: Context, call: BookingCall, head: u32, count: u32) -> Next
    ensures { result ≡ T.booked width s call head count }
{
    match call {
        BookingCall::Transfer(transfer, dest) => {
            let booked = BookedTokens {
                source: transfer.source,
                transfer: transfer.transfer,
                word: dest.word,
                tail: dest.tail,
                from: head,
                count,
            };
            row::on(
                s,
                Place::Move(MovePlace::ReadSlot { booked, moved: 0 }),
                Some(Change::Booked(count)),
            )
        }
        BookingCall::Drain(_) => Next {
            place: Place::Idle,
            drain: Drain {
                at: head,
                end: words::add(head, count),
            },
            answer: Some(Answer::Drain(count)),
            change: Some(Change::Booked(count)),
        },
    }
}
