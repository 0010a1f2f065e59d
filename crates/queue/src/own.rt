// What both kinds do on the own queue once its words are loaded: push, extend, spare, a steal's room; the popped token; the drain.
ghost use Rattle.std.specs.Prelude.{◌≡◌};
ghost use Rattle.words.specs.Edition.{width};
ghost use Rattle.words.specs.Word.{pick};
ghost use Rattle.tables.specs.Row as Y;
ghost use Rattle.tables.specs.Table as T;

use super::{closing, row};
use tables::access::{Access, Context, Next, Seen, Wanted};
use tables::answer::{Answer, Change};
use tables::call::Mark;
use tables::place::{
    BookPlace, BookingCall, ClosingCall, Destination, OwnPlace, OwnerCall, Place, TransferCall,
};
use tables::state::{Drain, Kind};
use words::Position;

// Until tail = head + capacity a step carries a token, or says end; then one store.
fn extending(pops: u32, tail: u32, limit: u32, written: u32) -> OwnPlace
    ensures { result ≡ T.extending pops tail limit written }
{
    if tail == limit {
        OwnPlace::ExtendStore {
            pops,
            tail,
            written,
        }
    } else {
        OwnPlace::ExtendMore {
            pops,
            tail,
            limit,
            written,
        }
    }
}

// Check that the buffer is not full.
fn push_room(s: Context, token: u64, word: u32, tail: u32, head: u32) -> Next
    ensures { result ≡ T.filled width s (OwnerCall.Push token) word 0 tail head }
{
    let mask = s.capacity.saturating_sub(1);
    if mask < words::sub(tail, head) {
        row::ends(s, Answer::Full(token), None)
    } else {
        row::on(
            s,
            Place::Own(OwnPlace::PushWrite { token, word, tail }),
            None,
        )
    }
}

// The words are loaded for a push, an extend or a spare.
// What the loads found stands apart, as the definition takes it (`T.filled`): a struct of it would be built in two places and taken apart
// in three, which is no plainer.
pub fn filled(s: Context, call: OwnerCall, word: u32, pops: u32, tail: u32, head: u32) -> Next
    ensures { result ≡ T.filled width s call word pops tail head }
{
    match call {
        OwnerCall::Push(token) => push_room(s, token, word, tail, head),
        OwnerCall::Extend => {
            row::on(
                s,
                Place::Own(extending(pops, tail, words::add(head, s.capacity), 0)),
                None,
            )
        }
        OwnerCall::Spare => row::ends(
            s,
            Answer::Spare(words::sub(s.capacity, words::sub(tail, head))),
            None,
        ),
    }
}

// What empty answers.
pub fn yes_or_no(empty: bool) -> Answer
    ensures { result ≡ pick empty Answer.Yes Answer.No }
{
    if empty { Answer::Yes } else { Answer::No }
}

pub fn booking(kind: Kind) -> BookPlace
    ensures { result ≡ T.booking kind }
{
    match kind {
        Kind::Lifo => BookPlace::LifoPacked,
        Kind::Fifo => BookPlace::FifoPacked,
    }
}

// Compute the free capacity of the destination queue; then booking.
pub fn brought(s: Context, transfer: TransferCall, word: u32, tail: u32, head: u32) -> Next
    ensures { result ≡ T.brought width s transfer word tail head }
{
    let room = words::sub(s.capacity, words::sub(tail, head));
    let call = BookingCall::Transfer(transfer, Destination { word, tail, room });
    row::on(s, Place::Book(call, booking(s.from)), None)
}

// With nothing open the drain touches nothing.
fn drain_wants(s: Context) -> Wanted
    ensures next_item { result ≡ Y.wanted (T.own_row width s OwnPlace.NextItem) }
    ensures drop_item { result ≡ Y.wanted (T.own_row width s OwnPlace.DropItem) }
{
    if s.drain.at == s.drain.end {
        row::own(Access::Touch)
    } else {
        row::own(Access::Read(Position(s.drain.at)))
    }
}

pub fn wants(place: OwnPlace, s: Context) -> Wanted
    ensures { result ≡ Y.wanted (T.own_row width s place) }
{
    match place {
        OwnPlace::PushWrite { token, tail, .. } => row::own(Access::Write(Position(tail), token)),
        OwnPlace::PushStore { word } => row::own(Access::StorePushes(words::add(word, 1))),
        OwnPlace::ExtendMore { tail, .. } => match s.mark {
            Mark::Carry(token) => row::own(Access::Write(Position(tail), token)),
            _ => row::own(Access::Touch),
        },
        OwnPlace::ExtendStore { pops, tail, .. } => {
            row::own(Access::StorePushes(words::add(tail, pops)))
        }
        OwnPlace::PopRead { at } => row::own(Access::Read(at)),
        OwnPlace::NextItem | OwnPlace::DropItem => drain_wants(s),
    }
}

fn extended(s: Context, pops: u32, tail: u32, limit: u32, written: u32) -> Next
    ensures { (seen : Seen) → result ≡ (T.extend_row width s s.mark pops tail limit written).after seen }
{
    if let Mark::Carry(token) = s.mark {
        let more = extending(pops, words::add(tail, 1), limit, words::add(written, 1));
        return row::on(s, Place::Own(more), Some(Change::Offered(token)));
    }
    let store = OwnPlace::ExtendStore {
        pops,
        tail,
        written,
    };
    row::on(s, Place::Own(store), None)
}

// We cannot rely on the caller to call next again after the last item: it closes before it answers.
fn drained(s: Context, token: u64) -> Next
    ensures { result ≡ T.drained width s token }
{
    let at = words::add(s.drain.at, 1);
    let end = s.drain.end;
    let drain = Drain { at, end };
    if at == end {
        Next {
            place: Place::Close(ClosingCall::Next(token), closing::first(s.kind, end)),
            drain,
            answer: None,
            change: Some(Change::Drained),
        }
    } else {
        Next {
            place: Place::Idle,
            drain,
            answer: Some(Answer::Item(token)),
            change: Some(Change::Drained),
        }
    }
}

fn dropping(s: Context) -> Next
    ensures { result ≡ T.dropping width s }
{
    let at = words::add(s.drain.at, 1);
    let end = s.drain.end;
    let place = if at == end {
        Place::Close(ClosingCall::Drop, closing::first(s.kind, end))
    } else {
        Place::Own(OwnPlace::DropItem)
    };
    Next {
        place,
        drain: Drain { at, end },
        answer: None,
        change: Some(Change::Dropped(1)),
    }
}

fn next_item(s: Context, seen: Seen) -> Next
    ensures { result ≡ (T.own_row width s OwnPlace.NextItem).after seen }
{
    if s.drain.at == s.drain.end {
        row::ends(s, Answer::Done, None)
    } else {
        drained(s, seen.token)
    }
}

fn drop_item(s: Context, seen: Seen) -> Next
    ensures { result ≡ (T.own_row width s OwnPlace.DropItem).after seen }
{
    if s.drain.at == s.drain.end {
        row::ends(s, Answer::Closed, None)
    } else {
        dropping(s)
    }
}

pub fn advance(place: OwnPlace, s: Context, seen: Seen) -> Next
    ensures { result ≡ (T.own_row width s place).after seen }
{
    match place {
        OwnPlace::PushWrite { token, word, .. } => row::on(
            s,
            Place::Own(OwnPlace::PushStore { word }),
            Some(Change::Offered(token)),
        ),
        OwnPlace::PushStore { .. } => row::ends(s, Answer::Pushed, Some(Change::Accepted)),
        OwnPlace::ExtendMore {
            pops,
            tail,
            limit,
            written,
        } => extended(s, pops, tail, limit, written),
        OwnPlace::ExtendStore { written, .. } => row::ends(
            s,
            Answer::Extended(written),
            Some(Change::Accepted),
        ),
        OwnPlace::PopRead { .. } => row::ends(s, Answer::Popped(seen.token), None),
        OwnPlace::NextItem => next_item(s, seen),
        OwnPlace::DropItem => drop_item(s, seen),
    }
}
