// A machine in plain words: 64-bit numbers in one lent slice, as a host in another language holds it.
#![tactic(auto)]

pub mod write; // a place as numbers
pub mod read; // numbers as a place
pub mod layout; // where the words stand
pub mod reply; // answers and effects as numbers
pub mod entry; // begin, step and run alone where the words stand
pub mod store; // a whole machine written
pub mod open; // a fresh machine
pub mod look; // what a host reads off

// What a call is about: its tag, and the rule, the source and the number (a token, or the rule's) that go with it.
#[derive(Clone, Copy)]
pub struct CallWords {
    pub tag: u64,
    pub rule: u64,
    pub source: u64,
    pub number: u64,
}

// A place: its role (0 idle, 1 LIFO's, 2 FIFO's, 3 own, 4 booking, 5 moving, 6 closing), its row there, and what it
// remembers: what its call is about, a packed word, and the short words in the order in which the place names them.
#[derive(Clone, Copy)]
pub struct PlaceWords {
    pub role: u64,
    pub row: u64,
    pub call: CallWords,
    pub packed: u64,
    pub first: u32,
    pub second: u32,
    pub third: u32,
    pub fourth: u32,
    pub fifth: u32,
}
