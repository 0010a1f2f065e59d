// Numbers as a place, or none. Numbers that are no place's are read as one whose source is not there, which the record test refuses.
ghost use Rattle.std.specs.Prelude.{◌≡◌, Ok, Err, ltb};
ghost use Rattle.words.specs.Word.{pick, orb};
ghost use Rattle.tables.specs.Step.{andb};
ghost use Rattle.block.specs.PlaceWords as C;

use super::{CallWords, PlaceWords};
use tables::call::Rule;
use tables::place::{
    BookPlace, BookedTokens, BookingCall, ClosePlace, ClosingCall, Destination, FifoPlace,
    LifoPlace, MovePlace, OwnPlace, OwnerCall, Place, RoomCall, Transfer, TransferCall,
};
use words::Position;

// ---- what a call is about; each is read where its role is known, and there is no error to tell, so it is an Option

// Between types of other crates, for which no `TryFrom` can stand here. A number that is no rule's reads as the last.
pub fn rule_of(rule: u64, number: u64) -> Rule
    ensures { result ≡ C.rule_of rule number }
{
    match rule {
        0 => Rule::All,
        1 => Rule::Half,
        2 => Rule::Fixed(number),
        _ => Rule::Given,
    }
}

// Beside `rule_of`, which reads every number: what names a rule is tested here.
fn known_rule(rule: u64, number: u64) -> Option<Rule>
    ensures { result ≡ C.where_known (ltb rule 4) (C.rule_of rule number) }
{
    if rule < 4 {
        Some(rule_of(rule, number))
    } else {
        None
    }
}

fn owner_of(w: CallWords) -> Option<OwnerCall>
    ensures { result ≡ C.where_known (ltb w.tag 3) (C.owner_of w) }
{
    match w.tag {
        0 => Some(OwnerCall::Push(w.number)),
        1 => Some(OwnerCall::Extend),
        2 => Some(OwnerCall::Spare),
        _ => None,
    }
}

fn transfer_of(tag: u64) -> Option<Transfer>
    ensures { result ≡ C.where_known (C.between 3 5 tag) (C.transfer_of tag) }
{
    match tag {
        3 => Some(Transfer::Steal),
        4 => Some(Transfer::Take),
        _ => None,
    }
}

fn transfer_call_of(w: CallWords) -> Option<TransferCall>
    ensures { result ≡ C.where_known (andb (C.between 3 5 w.tag) (ltb w.rule 4)) (C.transfer_call_of w) }
{
    Some(TransferCall {
        source: w.source,
        rule: known_rule(w.rule, w.number)?,
        transfer: transfer_of(w.tag)?,
    })
}

// An owner's call has no rule, but the number in its place is one of a rule all the same.
fn room_of(w: CallWords) -> Option<RoomCall>
    ensures { result ≡ C.where_known (andb (ltb w.tag 5) (ltb w.rule 4)) (C.room_of w) }
{
    if w.rule < 4 && w.tag < 3 {
        Some(RoomCall::Owner(owner_of(w)?))
    } else {
        Some(RoomCall::Transfer(transfer_call_of(w)?))
    }
}

#[tactic(auto, unfolding(crate::specs::PlaceWords::booking_of))]
fn booking_of(c: PlaceWords) -> Option<BookingCall>
    ensures { result ≡ C.where_known (andb (C.between 3 6 c.call.tag) (ltb c.call.rule 4)) (C.booking_of c) }
{
    let w = c.call;
    if w.tag == 5 {
        return Some(BookingCall::Drain(known_rule(w.rule, w.number)?));
    }
    let dest = Destination {
        word: c.first,
        tail: c.second,
        room: c.third,
    };
    Some(BookingCall::Transfer(transfer_call_of(w)?, dest))
}

fn booked_of(c: PlaceWords) -> Option<BookedTokens>
    ensures { result ≡ C.where_known (C.between 3 5 c.call.tag) (C.booked_of c) }
{
    Some(BookedTokens {
        source: c.call.source,
        transfer: transfer_of(c.call.tag)?,
        word: c.first,
        tail: c.second,
        from: c.third,
        count: c.fourth,
    })
}

#[tactic(auto, unfolding(crate::specs::PlaceWords::closing_of))]
fn closing_of(w: CallWords, count: u32) -> Option<ClosingCall>
    ensures { result ≡ C.where_known (orb (C.between 3 5 w.tag) (C.between 6 8 w.tag)) (C.closing_of w count) }
{
    let source = w.source;
    match w.tag {
        3 => Some(ClosingCall::Steal { source, count }),
        4 => Some(ClosingCall::Take {
            source,
            token: w.number,
            count,
        }),
        6 => Some(ClosingCall::Next(w.number)),
        7 => Some(ClosingCall::Drop),
        _ => None,
    }
}

// ---- where it stands

#[tactic(auto, unfolding(crate::specs::PlaceWords::lifo_of))]
fn lifo_of(c: PlaceWords) -> Option<LifoPlace>
    ensures { result ≡ C.where_known (C.lifo_known c.row c.call.tag c.call.rule) (C.lifo_of c) }
{
    let PlaceWords { packed, first, .. } = c;
    Some(match c.row {
        0 => LifoPlace::LoadPushes(room_of(c.call)?),
        1 => LifoPlace::LoadPacked {
            call: room_of(c.call)?,
            pushes: first,
        },
        2 => LifoPlace::LoadCompleted {
            call: room_of(c.call)?,
            pushes: first,
            packed,
        },
        3 => LifoPlace::PopPacked,
        4 => LifoPlace::PopPushes { packed },
        5 => LifoPlace::PopCas {
            packed,
            tail: first,
        },
        6 => LifoPlace::EmptyPushes,
        7 => LifoPlace::EmptyPacked { pushes: first },
        _ => return None,
    })
}

#[tactic(auto, unfolding(crate::specs::PlaceWords::fifo_of))]
fn fifo_of(c: PlaceWords) -> Option<FifoPlace>
    ensures { result ≡ C.where_known (C.fifo_known c.row c.call.tag c.call.rule) (C.fifo_of c) }
{
    let packed = c.packed;
    Some(match c.row {
        0 => FifoPlace::LoadPacked(owner_of(c.call)?),
        1 => FifoPlace::LoadTail {
            call: owner_of(c.call)?,
            packed,
        },
        2 => FifoPlace::DestTail(transfer_call_of(c.call)?),
        3 => FifoPlace::DestPacked {
            transfer: transfer_call_of(c.call)?,
            tail: c.first,
        },
        4 => FifoPlace::PopPacked,
        5 => FifoPlace::PopTail { packed },
        6 => FifoPlace::PopCas { packed },
        7 => FifoPlace::EmptyPacked,
        8 => FifoPlace::EmptyTail { packed },
        _ => return None,
    })
}

#[tactic(auto, unfolding(crate::specs::PlaceWords::own_of))]
fn own_of(c: PlaceWords) -> Option<OwnPlace>
    ensures { result ≡ C.where_known (ltb c.row 7) (C.own_of c) }
{
    match c.row {
        0 => Some(OwnPlace::PushWrite {
            token: c.call.number,
            word: c.first,
            tail: c.second,
        }),
        1 => Some(OwnPlace::PushStore { word: c.first }),
        2 => Some(OwnPlace::ExtendMore {
            pops: c.first,
            tail: c.second,
            limit: c.third,
            written: c.fourth,
        }),
        3 => Some(OwnPlace::ExtendStore {
            pops: c.first,
            tail: c.second,
            written: c.third,
        }),
        4 => Some(OwnPlace::PopRead {
            at: Position(c.first),
        }),
        5 => Some(OwnPlace::NextItem),
        6 => Some(OwnPlace::DropItem),
        _ => None,
    }
}

#[tactic(auto, unfolding(crate::specs::PlaceWords::book_of))]
fn book_of(c: PlaceWords) -> Option<BookPlace>
    ensures { result ≡ C.where_known (ltb c.row 7) (C.book_of c) }
{
    let PlaceWords {
        packed,
        fourth: completed,
        fifth: count,
        ..
    } = c;
    match c.row {
        0 => Some(BookPlace::LifoPacked),
        1 => Some(BookPlace::LifoCompleted { packed }),
        2 => Some(BookPlace::LifoPushes { packed, completed }),
        3 => Some(BookPlace::LifoCas {
            packed,
            completed,
            count,
        }),
        4 => Some(BookPlace::FifoPacked),
        5 => Some(BookPlace::FifoTail { packed }),
        6 => Some(BookPlace::FifoCas { packed, count }),
        _ => None,
    }
}

#[tactic(auto, unfolding(crate::specs::PlaceWords::move_of))]
fn move_of(c: PlaceWords) -> Option<MovePlace>
    ensures { result ≡ C.where_known (C.move_known c.row c.call.tag) (C.move_of c) }
{
    let booked = booked_of(c)?;
    match c.row {
        0 => Some(MovePlace::ReadSlot {
            booked,
            moved: c.fifth,
        }),
        1 => Some(MovePlace::WriteSlot {
            booked,
            moved: c.fifth,
            token: c.call.number,
        }),
        2 => Some(MovePlace::Land {
            booked,
            last: c.call.number,
        }),
        _ => None,
    }
}

#[tactic(auto, unfolding(crate::specs::PlaceWords::close_of))]
fn close_of(c: PlaceWords) -> Option<ClosePlace>
    ensures { result ≡ C.where_known (ltb c.row 3) (C.close_of c) }
{
    match c.row {
        0 => Some(ClosePlace::StoreCompleted { head: c.second }),
        1 => Some(ClosePlace::LoadHeads),
        2 => Some(ClosePlace::CasHeads { packed: c.packed }),
        _ => None,
    }
}

#[tactic(auto, unfolding(crate::specs::PlaceWords::known, crate::specs::PlaceWords::place_of))]
fn place_of(c: PlaceWords) -> Option<Place>
    ensures { result ≡ C.where_known (C.known c) (C.place_of c) }
{
    Some(match c.role {
        0 if c.row == 0 => Place::Idle,
        1 => Place::Lifo(lifo_of(c)?),
        2 => Place::Fifo(fifo_of(c)?),
        3 => Place::Own(own_of(c)?),
        4 => Place::Book(booking_of(c)?, book_of(c)?),
        5 => Place::Move(move_of(c)?),
        6 => Place::Close(closing_of(c.call, c.first)?, close_of(c)?),
        _ => return None,
    })
}

// Numbers that are no place's.
#[derive(Clone, Copy, Debug, PartialEq, Eq)]
pub struct NoPlace;

impl TryFrom<PlaceWords> for Place {
    type Error = NoPlace;

    ghost try_from_gives = { λ c r. r ≡ pick (C.known c) (Ok (C.place_of c)) (Err (record {})) };

    fn try_from(c: PlaceWords) -> Result<Self, NoPlace> {
        place_of(c).ok_or(NoPlace)
    }
}

// The last of all numbers is no party's, so the record test refuses this place.
const NOBODYS: Place = Place::Close(
    ClosingCall::Steal {
        source: u64::MAX,
        count: 0,
    },
    ClosePlace::LoadHeads,
);

#[tactic(auto, unfolding(crate::specs::PlaceWords::place_read))]
pub fn place(c: PlaceWords) -> Place
    ensures { result ≡ C.place_read c }
{
    Place::try_from(c).unwrap_or(NOBODYS)
}
