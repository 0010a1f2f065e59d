// A row of the access tables: whose queue, which access, and what follows from what was seen.
use super::answer::{Answer, Change};
use super::call::Mark;
use super::place::Place;
use super::state::{Drain, Kind};
use words::Position;

// One memory access to one queue. `Touch` touches nothing.
#[derive(Clone, Copy)]
pub enum Access {
    Touch,
    LoadPushes,
    LoadPacked,
    LoadCompleted,
    StorePushes(u32),
    StoreCompleted(u32),
    Cas { old: u64, new: u64 },
    Read(Position),
    Write(Position, u64),
}

// What an access shows its party: a word, the packed word, a token; whether a compare-exchange stored. All are there at every access, 0
// where it shows none of them (`stored`: true), so that a row reads its own without a case for the others (`Row.after`).
#[derive(Clone, Copy)]
pub struct Seen {
    pub word: u32,
    pub packed: u64,
    pub token: u64,
    pub stored: bool,
}

// Whose queue a row's access is to: the party's own, or the source.
#[derive(Clone, Copy, PartialEq, Eq)]
pub enum Whose {
    Own,
    Source,
}

// A row's left columns: whose queue, which access.
#[derive(Clone, Copy)]
pub struct Wanted {
    pub whose: Whose,
    pub access: Access,
}

// What a row knows besides its place: the own queue's kind and capacity, the source's kind, the party's drain, the step's mark.
#[derive(Clone, Copy)]
pub struct Context {
    pub kind: Kind,
    pub capacity: u32,
    pub from: Kind,
    pub drain: Drain,
    pub mark: Mark,
}

// What a row comes to: the next place and drain; the answer, if the call ends; what was done to the lists, if anything.
#[derive(Clone, Copy)]
pub struct Next {
    pub place: Place,
    pub drain: Drain,
    pub answer: Option<Answer>,
    pub change: Option<Change>,
}

// What a step wants to be carried: nothing, a number, or a token or end. No `Option` of two: the three are matched as one (`mark_fits`).
#[derive(Clone, Copy, PartialEq, Eq)]
pub enum Wish {
    Nothing,
    Number,
    Token,
}
