// What else a place says: the source it names, the kind whose tables have it, what its step wants; and a call's first place.
ghost use Rattle.std.specs.Prelude.{◌≡◌};
ghost use Rattle.tables.specs.Access as X;
ghost use Rattle.tables.specs.Tables as T;

use super::counting;
use tables::access::{Access, Wish};
use tables::call::{Call, Mark, Rule};
use tables::place::{
    BookPlace, BookingCall, ClosePlace, ClosingCall, FifoPlace, LifoPlace, MovePlace, OwnPlace,
    OwnerCall, Place, RoomCall, Transfer, TransferCall,
};
use tables::state::Kind;

pub fn is_idle(place: Place) -> bool
    ensures { result ≡ T.is_idle place }
{
    matches!(place, Place::Idle)
}

fn room_source(who: u64, call: RoomCall) -> u64
    ensures { result ≡ T.room_source who call }
{
    match call {
        RoomCall::Owner(_) => who,
        RoomCall::Transfer(transfer) => transfer.source,
    }
}

fn lifo_source(who: u64, place: LifoPlace) -> u64
    ensures { result ≡ T.lifo_source who place }
{
    match place {
        LifoPlace::LoadPushes(call)
        | LifoPlace::LoadPacked { call, .. }
        | LifoPlace::LoadCompleted { call, .. } => room_source(who, call),
        _ => who,
    }
}

fn fifo_source(who: u64, place: FifoPlace) -> u64
    ensures { result ≡ T.fifo_source who place }
{
    match place {
        FifoPlace::DestTail(transfer) | FifoPlace::DestPacked { transfer, .. } => transfer.source,
        _ => who,
    }
}

fn booking_source(who: u64, call: BookingCall) -> u64
    ensures { result ≡ T.booking_source who call }
{
    match call {
        BookingCall::Transfer(transfer, _) => transfer.source,
        BookingCall::Drain(_) => who,
    }
}

fn move_source(place: MovePlace) -> u64
    ensures { result ≡ T.move_source place }
{
    match place {
        MovePlace::ReadSlot { booked, .. }
        | MovePlace::WriteSlot { booked, .. }
        | MovePlace::Land { booked, .. } => booked.source,
    }
}

fn closing_source(who: u64, call: ClosingCall) -> u64
    ensures { result ≡ T.closing_source who call }
{
    match call {
        ClosingCall::Steal { source, .. } | ClosingCall::Take { source, .. } => source,
        ClosingCall::Next(_) | ClosingCall::Drop => who,
    }
}

// The source that a place names, or its party's own number.
pub fn source_of(who: u64, place: Place) -> u64
    ensures { result ≡ T.source_of who place }
{
    match place {
        Place::Idle | Place::Own(_) => who,
        Place::Lifo(p) => lifo_source(who, p),
        Place::Fifo(p) => fifo_source(who, p),
        Place::Book(g, _) => booking_source(who, g),
        Place::Move(p) => move_source(p),
        Place::Close(e, _) => closing_source(who, e),
    }
}

// The kind whose tables have a booking's place.
fn book_kind(place: BookPlace) -> Kind
    ensures { result ≡ T.book_kind place }
{
    match place {
        BookPlace::LifoPacked
        | BookPlace::LifoCompleted { .. }
        | BookPlace::LifoPushes { .. }
        | BookPlace::LifoCas { .. } => Kind::Lifo,
        BookPlace::FifoPacked | BookPlace::FifoTail { .. } | BookPlace::FifoCas { .. } =>
            Kind::Fifo,
    }
}

// And a closing's.
fn close_kind(place: ClosePlace) -> Kind
    ensures { result ≡ T.close_kind place }
{
    match place {
        ClosePlace::StoreCompleted { .. } => Kind::Lifo,
        ClosePlace::LoadHeads | ClosePlace::CasHeads { .. } => Kind::Fifo,
    }
}

// Whether the tables of the own queue's kind, and of the source's, have the place.
pub fn has_place(kind: Kind, from: Kind, place: Place) -> bool
    ensures { result ≡ T.has_place kind from place }
{
    match place {
        Place::Idle | Place::Own(_) | Place::Move(_) => true,
        Place::Lifo(_) => kind == Kind::Lifo,
        Place::Fifo(_) => kind == Kind::Fifo,
        Place::Book(_, p) => from == book_kind(p),
        Place::Close(_, p) => from == close_kind(p),
    }
}

fn rule_wish(rule: Rule) -> Wish
    ensures { result ≡ T.rule_wish rule }
{
    match rule {
        Rule::All | Rule::Half | Rule::Fixed(_) => Wish::Nothing,
        Rule::Given => Wish::Number,
    }
}

fn book_wish(call: BookingCall, place: BookPlace) -> Wish
    ensures { result ≡ T.book_wish call place }
{
    match place {
        BookPlace::LifoPushes { .. } | BookPlace::FifoTail { .. } => rule_wish(counting::rule_of(
            call,
        )),
        _ => Wish::Nothing,
    }
}

fn own_wish(place: OwnPlace) -> Wish
    ensures { result ≡ T.own_wish place }
{
    match place {
        OwnPlace::ExtendMore { .. } => Wish::Token,
        _ => Wish::Nothing,
    }
}

// What the step at a place wants to be carried.
pub fn wish_of(place: Place) -> Wish
    ensures { result ≡ T.wish_of place }
{
    match place {
        Place::Own(p) => own_wish(p),
        Place::Book(g, p) => book_wish(g, p),
        _ => Wish::Nothing,
    }
}

pub fn wishes(wish: Wish) -> bool
    ensures { result ≡ T.wishes wish }
{
    wish != Wish::Nothing
}

pub fn is_cas(access: Access) -> bool
    ensures { result ≡ X.is_cas access }
{
    matches!(access, Access::Cas { .. })
}

// Where nothing is wanted: plain, or weak at a compare-exchange.
pub fn mark_fits(wish: Wish, cas: bool, mark: Mark) -> bool
    ensures { result ≡ T.mark_fits wish cas mark }
{
    match wish {
        Wish::Nothing => mark == Mark::Plain || cas && mark == Mark::Weak,
        Wish::Number => matches!(mark, Mark::Carry(_)),
        Wish::Token => matches!(mark, Mark::Carry(_) | Mark::End),
    }
}

fn transfer_call(source: u64, rule: Rule, transfer: Transfer) -> TransferCall
    ensures { result ≡ T.transfer_call source rule transfer }
{
    TransferCall {
        source,
        rule,
        transfer,
    }
}

// No twin of `start_fifo`: of the ten arms only next and drop are the same.
fn start_lifo(call: Call) -> Place
    ensures { result ≡ T.start_lifo call }
{
    match call {
        Call::Push(token) => Place::Lifo(LifoPlace::LoadPushes(RoomCall::Owner(OwnerCall::Push(
            token,
        )))),
        Call::Pop => Place::Lifo(LifoPlace::PopPacked),
        Call::Extend => Place::Lifo(LifoPlace::LoadPushes(RoomCall::Owner(OwnerCall::Extend))),
        Call::Drain(rule) => Place::Book(BookingCall::Drain(rule), BookPlace::LifoPacked),
        Call::Next => Place::Own(OwnPlace::NextItem),
        Call::Drop => Place::Own(OwnPlace::DropItem),
        Call::Steal { source, rule } => Place::Lifo(LifoPlace::LoadPushes(RoomCall::Transfer(
            transfer_call(source, rule, Transfer::Steal),
        ))),
        Call::Take { source, rule } => Place::Lifo(LifoPlace::LoadPushes(RoomCall::Transfer(
            transfer_call(source, rule, Transfer::Take),
        ))),
        Call::Spare => Place::Lifo(LifoPlace::LoadPushes(RoomCall::Owner(OwnerCall::Spare))),
        Call::Empty => Place::Lifo(LifoPlace::EmptyPushes),
    }
}

fn start_fifo(call: Call) -> Place
    ensures { result ≡ T.start_fifo call }
{
    match call {
        Call::Push(token) => Place::Fifo(FifoPlace::LoadPacked(OwnerCall::Push(token))),
        Call::Pop => Place::Fifo(FifoPlace::PopPacked),
        Call::Extend => Place::Fifo(FifoPlace::LoadPacked(OwnerCall::Extend)),
        Call::Drain(rule) => Place::Book(BookingCall::Drain(rule), BookPlace::FifoPacked),
        Call::Next => Place::Own(OwnPlace::NextItem),
        Call::Drop => Place::Own(OwnPlace::DropItem),
        Call::Steal { source, rule } => Place::Fifo(FifoPlace::DestTail(transfer_call(
            source,
            rule,
            Transfer::Steal,
        ))),
        Call::Take { source, rule } => Place::Fifo(FifoPlace::DestTail(transfer_call(
            source,
            rule,
            Transfer::Take,
        ))),
        Call::Spare => Place::Fifo(FifoPlace::LoadPacked(OwnerCall::Spare)),
        Call::Empty => Place::Fifo(FifoPlace::EmptyPacked),
    }
}

// A call's first place, by the own queue's kind.
pub fn start(kind: Kind, call: Call) -> Place
    ensures { result ≡ T.start kind call }
{
    match kind {
        Kind::Lifo => start_lifo(call),
        Kind::Fifo => start_fifo(call),
    }
}

// The source that a call names, or its party's own number.
pub fn call_source(who: u64, call: Call) -> u64
    ensures { result ≡ T.call_source who call }
{
    match call {
        Call::Steal { source, .. } | Call::Take { source, .. } => source,
        _ => who,
    }
}
