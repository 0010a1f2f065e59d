// Booked tokens on their way: read a source slot, write a destination slot; then they land.
ghost use Rattle.std.specs.Prelude.{◌≡◌};
ghost use Rattle.words.specs.Edition.{width};
ghost use Rattle.tables.specs.Row as Y;
ghost use Rattle.tables.specs.Access as X;
ghost use Rattle.tables.specs.Table as T;

use super::{closing, row};
use tables::access::{Access, Context, Next, Seen, Wanted};
use tables::answer::Change;
use tables::place::{BookedTokens, ClosingCall, MovePlace, Place, Transfer};
use words::Position;

// A take does not write its last token: it keeps it in hand.
fn last_read(booked: BookedTokens, moved: u32) -> bool
    ensures { result ≡ T.last_read width booked.transfer booked moved }
{
    booked.transfer == Transfer::Take && words::add(moved, 1) == booked.count
}

// A steal writes its last token. Each of the two is a definition's: one of both would have to say which transfer it asks of.
fn last_written(booked: BookedTokens, moved: u32) -> bool
    ensures { result ≡ T.last_written width booked.transfer booked moved }
{
    booked.transfer == Transfer::Steal && words::add(moved, 1) == booked.count
}

fn landing(booked: BookedTokens) -> u32
    ensures { result ≡ T.landing width booked.transfer booked }
{
    match booked.transfer {
        Transfer::Steal => booked.count,
        Transfer::Take => words::sub(booked.count, 1),
    }
}

fn was_read(s: Context, booked: BookedTokens, moved: u32, token: u64) -> Next
    ensures { result ≡ T.was_read width s booked moved token }
{
    let next = if last_read(booked, moved) {
        MovePlace::Land {
            booked,
            last: token,
        }
    } else {
        MovePlace::WriteSlot {
            booked,
            moved,
            token,
        }
    };
    row::on(s, Place::Move(next), None)
}

fn was_written(s: Context, booked: BookedTokens, moved: u32) -> Next
    ensures { result ≡ T.was_written width s booked moved }
{
    let next = if last_written(booked, moved) {
        MovePlace::Land { booked, last: 0 }
    } else {
        MovePlace::ReadSlot {
            booked,
            moved: words::add(moved, 1),
        }
    };
    row::on(s, Place::Move(next), None)
}

fn landed(s: Context, booked: BookedTokens, last: u64) -> Next
    ensures { result ≡ (T.move_row width s (MovePlace.Land booked last)).after X.nothing_seen }
{
    let source = booked.source;
    let close = closing::first(s.from, words::add(booked.from, booked.count));
    let count = landing(booked);
    match booked.transfer {
        Transfer::Steal => {
            let call = ClosingCall::Steal { source, count };
            row::on(s, Place::Close(call, close), Some(Change::Landed(count)))
        }
        Transfer::Take => {
            let call = ClosingCall::Take {
                source,
                token: last,
                count,
            };
            row::on(
                s,
                Place::Close(call, close),
                Some(Change::TakeLanded(count)),
            )
        }
    }
}

pub fn wants(place: MovePlace) -> Wanted
    ensures { (s : Context) → result ≡ Y.wanted (T.move_row width s place) }
{
    match place {
        MovePlace::ReadSlot { booked, moved } => {
            row::source(Access::Read(Position(words::add(booked.from, moved))))
        }
        MovePlace::WriteSlot {
            booked,
            moved,
            token,
        } => row::own(Access::Write(Position(words::add(booked.tail, moved)), token)),
        MovePlace::Land { booked, .. } => {
            row::own(Access::StorePushes(words::add(booked.word, landing(booked))))
        }
    }
}

pub fn advance(place: MovePlace, s: Context, seen: Seen) -> Next
    ensures { result ≡ (T.move_row width s place).after seen }
{
    match place {
        MovePlace::ReadSlot { booked, moved } => was_read(s, booked, moved, seen.token),
        MovePlace::WriteSlot { booked, moved, .. } => was_written(s, booked, moved),
        MovePlace::Land { booked, last } => landed(s, booked, last),
    }
}
