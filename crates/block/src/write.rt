// A place as numbers, in the order of the tables. What a place does not remember is 0.
ghost use Rattle.std.specs.Prelude.{◌≡◌};
ghost use Rattle.block.specs.PlaceWords as C;

use super::{CallWords, PlaceWords};
use tables::call::Rule;
use tables::place::{
    BookPlace, BookedTokens, BookingCall, ClosePlace, ClosingCall, FifoPlace, LifoPlace, MovePlace,
    OwnPlace, OwnerCall, Place, RoomCall, Transfer, TransferCall,
};
use words::Position;

const NO_CALL: CallWords = CallWords {
    tag: 0,
    rule: 0,
    source: 0,
    number: 0,
};

// ---- what a call is about

impl From<Rule> for CallWords {
    ghost from_gives = { λ r w. w ≡ C.call_words 0 (C.rule_number r) 0 (C.rule_count r) };

    fn from(rule: Rule) -> Self {
        match rule {
            Rule::All => NO_CALL,
            Rule::Half => CallWords { rule: 1, ..NO_CALL },
            Rule::Fixed(number) => CallWords {
                rule: 2,
                number,
                ..NO_CALL
            },
            Rule::Given => CallWords { rule: 3, ..NO_CALL },
        }
    }
}

impl From<OwnerCall> for CallWords {
    ghost from_gives = { λ f w. w ≡ C.owner_words f };

    fn from(owner: OwnerCall) -> Self {
        match owner {
            OwnerCall::Push(number) => CallWords { number, ..NO_CALL },
            OwnerCall::Extend => CallWords { tag: 1, ..NO_CALL },
            OwnerCall::Spare => CallWords { tag: 2, ..NO_CALL },
        }
    }
}

// Between types of other crates, for which no `From` can stand here.
fn transfer_tag(transfer: Transfer) -> u64
    ensures { result ≡ C.transfer_tag transfer }
{
    match transfer {
        Transfer::Steal => 3,
        Transfer::Take => 4,
    }
}

impl From<TransferCall> for CallWords {
    ghost from_gives = { λ e w. w ≡ C.transfer_words e };

    fn from(call: TransferCall) -> Self {
        CallWords {
            tag: transfer_tag(call.transfer),
            source: call.source,
            ..CallWords::from(call.rule)
        }
    }
}

impl From<RoomCall> for CallWords {
    ghost from_gives = { λ j w. w ≡ C.room_words j };

    fn from(call: RoomCall) -> Self {
        match call {
            RoomCall::Owner(owner) => owner.into(),
            RoomCall::Transfer(transfer) => transfer.into(),
        }
    }
}

// ---- where it stands

// A place that remembers nothing.
fn at(role: u64, row: u64) -> PlaceWords
    ensures { result ≡ C.place_words role row C.no_call 0 0 0 0 0 0 }
{
    PlaceWords {
        role,
        row,
        call: NO_CALL,
        packed: 0,
        first: 0,
        second: 0,
        third: 0,
        fourth: 0,
        fifth: 0,
    }
}

impl From<LifoPlace> for PlaceWords {
    ghost from_gives = { λ p c. c ≡ C.lifo_words p };

    fn from(place: LifoPlace) -> Self {
        match place {
            LifoPlace::LoadPushes(call) => PlaceWords {
                call: call.into(),
                ..at(1, 0)
            },
            LifoPlace::LoadPacked { call, pushes } => PlaceWords {
                call: call.into(),
                first: pushes,
                ..at(1, 1)
            },
            LifoPlace::LoadCompleted {
                call,
                pushes,
                packed,
            } => PlaceWords {
                call: call.into(),
                packed,
                first: pushes,
                ..at(1, 2)
            },
            LifoPlace::PopPacked => at(1, 3),
            LifoPlace::PopPushes { packed } => PlaceWords { packed, ..at(1, 4) },
            LifoPlace::PopCas { packed, tail } => PlaceWords {
                packed,
                first: tail,
                ..at(1, 5)
            },
            LifoPlace::EmptyPushes => at(1, 6),
            LifoPlace::EmptyPacked { pushes } => PlaceWords {
                first: pushes,
                ..at(1, 7)
            },
        }
    }
}

impl From<FifoPlace> for PlaceWords {
    ghost from_gives = { λ p c. c ≡ C.fifo_words p };

    fn from(place: FifoPlace) -> Self {
        match place {
            FifoPlace::LoadPacked(call) => PlaceWords {
                call: call.into(),
                ..at(2, 0)
            },
            FifoPlace::LoadTail { call, packed } => PlaceWords {
                call: call.into(),
                packed,
                ..at(2, 1)
            },
            FifoPlace::DestTail(call) => PlaceWords {
                call: call.into(),
                ..at(2, 2)
            },
            FifoPlace::DestPacked { transfer, tail } => PlaceWords {
                call: transfer.into(),
                first: tail,
                ..at(2, 3)
            },
            FifoPlace::PopPacked => at(2, 4),
            FifoPlace::PopTail { packed } => PlaceWords { packed, ..at(2, 5) },
            FifoPlace::PopCas { packed } => PlaceWords { packed, ..at(2, 6) },
            FifoPlace::EmptyPacked => at(2, 7),
            FifoPlace::EmptyTail { packed } => PlaceWords { packed, ..at(2, 8) },
        }
    }
}

impl From<OwnPlace> for PlaceWords {
    ghost from_gives = { λ p c. c ≡ C.own_words p };

    fn from(place: OwnPlace) -> Self {
        match place {
            OwnPlace::PushWrite { token, word, tail } => PlaceWords {
                call: CallWords {
                    number: token,
                    ..NO_CALL
                },
                first: word,
                second: tail,
                ..at(3, 0)
            },
            OwnPlace::PushStore { word } => PlaceWords {
                first: word,
                ..at(3, 1)
            },
            OwnPlace::ExtendMore {
                pops,
                tail,
                limit,
                written,
            } => PlaceWords {
                first: pops,
                second: tail,
                third: limit,
                fourth: written,
                ..at(3, 2)
            },
            OwnPlace::ExtendStore {
                pops,
                tail,
                written,
            } => PlaceWords {
                first: pops,
                second: tail,
                third: written,
                ..at(3, 3)
            },
            OwnPlace::PopRead {
                at: Position(first),
            } => PlaceWords { first, ..at(3, 4) },
            OwnPlace::NextItem => at(3, 5),
            OwnPlace::DropItem => at(3, 6),
        }
    }
}

// What for, and what the destination loads found.
impl From<BookingCall> for PlaceWords {
    ghost from_gives = { λ g c. c ≡ C.booking (C.booking_words g) (C.booking_destination g) 0 0 0 0 };

    fn from(call: BookingCall) -> Self {
        match call {
            BookingCall::Transfer(transfer, dest) => PlaceWords {
                call: transfer.into(),
                first: dest.word,
                second: dest.tail,
                third: dest.room,
                ..at(4, 0)
            },
            BookingCall::Drain(rule) => PlaceWords {
                call: CallWords {
                    tag: 5,
                    ..CallWords::from(rule)
                },
                ..at(4, 0)
            },
        }
    }
}

fn book(call: BookingCall, place: BookPlace) -> PlaceWords
    ensures { result ≡ C.book_words (C.booking_words call) (C.booking_destination call) place }
{
    let book = PlaceWords::from(call);
    match place {
        BookPlace::LifoPacked => book,
        BookPlace::LifoCompleted { packed } => PlaceWords {
            row: 1,
            packed,
            ..book
        },
        BookPlace::LifoPushes { packed, completed } => PlaceWords {
            row: 2,
            packed,
            fourth: completed,
            ..book
        },
        BookPlace::LifoCas {
            packed,
            completed,
            count,
        } => PlaceWords {
            row: 3,
            packed,
            fourth: completed,
            fifth: count,
            ..book
        },
        BookPlace::FifoPacked => PlaceWords { row: 4, ..book },
        BookPlace::FifoTail { packed } => PlaceWords {
            row: 5,
            packed,
            ..book
        },
        BookPlace::FifoCas { packed, count } => PlaceWords {
            row: 6,
            packed,
            fifth: count,
            ..book
        },
    }
}

// The token on its way stands where a rule's number would.
fn moving(booked: BookedTokens, token: u64) -> PlaceWords
    ensures { result ≡ C.moving booked 0 token 0 }
{
    PlaceWords {
        call: CallWords {
            tag: transfer_tag(booked.transfer),
            source: booked.source,
            number: token,
            ..NO_CALL
        },
        first: booked.word,
        second: booked.tail,
        third: booked.from,
        fourth: booked.count,
        ..at(5, 0)
    }
}

impl From<MovePlace> for PlaceWords {
    ghost from_gives = { λ p c. c ≡ C.move_words p };

    fn from(place: MovePlace) -> Self {
        match place {
            MovePlace::ReadSlot { booked, moved } => PlaceWords {
                fifth: moved,
                ..moving(booked, 0)
            },
            MovePlace::WriteSlot {
                booked,
                moved,
                token,
            } => PlaceWords {
                row: 1,
                fifth: moved,
                ..moving(booked, token)
            },
            MovePlace::Land { booked, last } => PlaceWords {
                row: 2,
                ..moving(booked, last)
            },
        }
    }
}

impl From<ClosingCall> for PlaceWords {
    ghost from_gives = { λ e c. c ≡ C.place_words 6 0 (C.closing_words e) 0 (C.closing_count e) 0 0 0 0 };

    fn from(call: ClosingCall) -> Self {
        let (call, first) = match call {
            ClosingCall::Steal { source, count } => (
                CallWords {
                    tag: 3,
                    source,
                    ..NO_CALL
                },
                count,
            ),
            ClosingCall::Take {
                source,
                token,
                count,
            } => (
                CallWords {
                    tag: 4,
                    source,
                    number: token,
                    ..NO_CALL
                },
                count,
            ),
            ClosingCall::Next(number) => (
                CallWords {
                    tag: 6,
                    number,
                    ..NO_CALL
                },
                0,
            ),
            ClosingCall::Drop => (CallWords { tag: 7, ..NO_CALL }, 0),
        };
        PlaceWords {
            call,
            first,
            ..at(6, 0)
        }
    }
}

fn close(call: ClosingCall, place: ClosePlace) -> PlaceWords
    ensures { result ≡ C.close_words call place }
{
    let close = PlaceWords::from(call);
    match place {
        ClosePlace::StoreCompleted { head } => PlaceWords {
            second: head,
            ..close
        },
        ClosePlace::LoadHeads => PlaceWords { row: 1, ..close },
        ClosePlace::CasHeads { packed } => PlaceWords {
            row: 2,
            packed,
            ..close
        },
    }
}

#[tactic(auto, unfolding(crate::specs::PlaceWords::words_of))]
impl From<Place> for PlaceWords {
    ghost from_gives = { λ p c. c ≡ C.words_of p };

    fn from(place: Place) -> Self {
        match place {
            Place::Idle => at(0, 0),
            Place::Lifo(p) => p.into(),
            Place::Fifo(p) => p.into(),
            Place::Own(p) => p.into(),
            Place::Book(call, p) => book(call, p),
            Place::Move(p) => p.into(),
            Place::Close(call, p) => close(call, p),
        }
    }
}
