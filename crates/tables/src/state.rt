// The record that is handed in and back: a table of party records and queue words.
use super::answer::{Refusal, Reply};
use super::place::Place;

// The party limit.
pub const MOST: usize = 16;

// Which of the two queues of the Rust crate it is.
#[derive(Clone, Copy, PartialEq, Eq)]
pub enum Kind {
    Lifo = 0,
    Fifo = 1,
}

// A queue's words. `pushes` is LIFO's push count and FIFO's tail; `packed` is LIFO's (pop count, booked head) and FIFO's (worker
// head, stealer head); `completed` is LIFO's completed head, which FIFO lacks.
#[derive(Clone, Copy)]
pub struct Queue {
    pub kind: Kind,
    pub capacity: u32,
    pub pushes: u32,
    pub packed: u64,
    pub completed: u32,
}

// A drain's next token and its end; it is open where the two differ.
#[derive(Clone, Copy)]
pub struct Drain {
    pub at: u32,
    pub end: u32,
}

// Where a party's call stands (idle: it has none), and its drain.
#[derive(Clone, Copy)]
pub struct Party {
    pub place: Place,
    pub drain: Drain,
}

// The machine: its first `parties` parties, each with the queue of the same number; the entries after them are there and unused. Arrays by
// value, by a rule of the project: memory is fixed. Two, since a block has all parties' words before the queues'.
#[derive(Clone, Copy)]
pub struct Machine {
    pub parties: u32,
    pub party: [Party; MOST],
    pub queue: [Queue; MOST],
}

// What an act leaves: the machine, as it came if it was refused, and what is said.
#[derive(Clone, Copy)]
pub struct Acted {
    pub machine: Machine,
    pub reply: Result<Reply, Refusal>,
}

// What an opening gives. Refused, it gives a machine too, which `block::open::open` writes: no parties, of the kind asked for. So it is no
// `Result`.
#[derive(Clone, Copy)]
pub struct Opened {
    pub machine: Machine,
    pub refusal: Option<Refusal>,
}
