// One queue's accesses, and the access tables in code: what a step wants of which queue, and what follows from what it saw.
// lifo.rt and fifo.rt stand beside st3's lifo.rs and fifo.rs; what both kinds share has modules of its own. Where they look alike they are
// no twins: they differ in which half of the packed word is the head, in what follows a failed exchange, and in the places they name.
#![tactic(auto)]

ghost use Rattle.std.specs.Prelude.{◌≡◌};
ghost use Rattle.words.specs.Edition.{width};
ghost use Rattle.tables.specs.Row as Y;
ghost use Rattle.tables.specs.Tables as T;

use tables::access::{Access, Context, Next, Seen, Wanted};
use tables::place::Place;

pub mod memory; // one access to one queue's words and slots
pub mod row; // the pieces that a row is made of
pub mod closing; // the end of a booking
pub mod own; // what both kinds do on the own queue
pub mod counting; // how many to book, and what a booking comes to
pub mod lifo; // LIFO's loads, pop, empty and booking
pub mod fifo; // FIFO's
pub mod book; // the rows of a booking
pub mod moves; // booked tokens on their way to the destination
pub mod places; // what else a place says: its source, its kind, what it wants; a call's first place

pub fn wants(place: Place, s: Context) -> Wanted
    ensures { result ≡ Y.wanted (T.row_of width s place) }
{
    match place {
        Place::Idle => row::own(Access::Touch),
        Place::Lifo(p) => lifo::wants(p),
        Place::Fifo(p) => fifo::wants(p),
        Place::Own(p) => own::wants(p, s),
        Place::Book(g, p) => book::wants(p),
        Place::Move(p) => moves::wants(p),
        Place::Close(e, p) => closing::wants(p),
    }
}

pub fn advance(place: Place, s: Context, seen: Seen) -> Next
    ensures { result ≡ (T.row_of width s place).after seen }
{
    match place {
        Place::Idle => row::on(s, Place::Idle, None),
        Place::Lifo(p) => lifo::advance(p, s, seen),
        Place::Fifo(p) => fifo::advance(p, s, seen),
        Place::Own(p) => own::advance(p, s, seen),
        Place::Book(g, p) => book::advance(g, p, s, seen),
        Place::Move(p) => moves::advance(p, s, seen),
        Place::Close(e, p) => closing::advance(e, p, s, seen),
    }
}
