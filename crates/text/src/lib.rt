// The text side of the schedule program: its lines read, its answers written.
#![tactic(auto)]

use tables::call::{Call, Mark, Rule};
use tables::state::Kind;

mod scan; // where a byte first stands
mod read; // a line, from its bytes
mod write; // what is printed, as bytes
mod find; // the next line of a block
mod quick; // the commonest lines, read where they stand in a block
mod lines; // many lines of a piece, the machine in one local
mod session; // a run, line by line
pub mod run; // a run whole, in pieces of input and output

// A source, then a rule.
#[derive(Clone, Copy)]
pub struct Aim {
    pub source: u64,
    pub rule: Rule,
}

// A line as it is read. A malformed one is a line like the others: it is refused, or passed by once the run is over (`line_taken`), so
// that there is no `Option` of a line.
#[derive(Clone, Copy)]
pub enum Line {
    Machine(Kind, u64),
    Queue { request: u64, position: u32 },
    Begin(u64, Call),
    Step(u64, Mark),
    Malformed,
}

// A line found in a block of input, and where the next one starts.
#[derive(Clone, Copy)]
pub struct Found {
    pub line: Line,
    pub next: usize,
}
