// What a machine answers or refuses, and what it has done to the plain lists; the columns of the dictionary's rows that code hands on.
ghost use Rattle.std.specs.Prelude.{◌≡◌};
ghost use Rattle.tables.specs.Answer as Aw;
ghost use Rattle.tables.specs.Effect as Ef;
ghost use Rattle.tables.specs.Refusal.{number_of};

// Document 01's answers.
#[derive(Clone, Copy)]
pub enum Answer {
    Pushed,
    Full(u64),
    Popped(u64),
    None,
    Extended(u32),
    Stolen(u32),
    Taken { token: u64, count: u32 },
    Drain(u32),
    Item(u64),
    Done,
    Closed,
    Busy,
    Empty,
    Spare(u32),
    Yes,
    No,
}

// What an effect does to the plain lists. `TakeLanded` is a take's landing, with its last token in hand; `Dropped` has a count, 1
// for a single step.
#[derive(Clone, Copy)]
pub enum Change {
    Offered(u64),
    Accepted,
    Popped,
    Booked(u32),
    Landed(u32),
    TakeLanded(u32),
    Drained,
    Dropped(u64),
    Closed,
}

// Document 01's refusals, with its numbers. Whatever is refused changes nothing.
#[derive(Clone, Copy, PartialEq, Eq)]
pub enum Refusal {
    Record = 1, // the machine handed in, or asked for, is none
    Party = 2, // no such party
    Busy = 3, // the party has a call under way
    Idle = 4, // the party has none
    Source = 5, // no such source
    Mark = 6, // the step does not carry what its place wants
    Request = 7, // above the largest capacity
    Items = 8, // too few are lent
    Line = 9, // malformed or misplaced
}

impl From<Refusal> for u8 {
    ghost from_gives = { λ refusal number. number ≡ number_of refusal };

    fn from(refusal: Refusal) -> u8 {
        refusal as u8
    }
}

// The values that an answer or an effect names.
#[derive(Clone, Copy)]
pub struct Values {
    pub token: Option<u64>,
    pub count: Option<u64>,
}

// An effect names its party and queue (landed: the source).
#[derive(Clone, Copy)]
pub struct Effect {
    pub party: u64,
    pub queue: u64,
    pub change: Change,
}

// A run alone has at most three, dropped ones in a row as one; any other act has one at most. The count stands beside the list for the C
// interface: it is a word of the reply that a host reads (`block::reply::reply_words`).
#[derive(Clone, Copy)]
pub struct Effects {
    pub count: u32,
    pub list: [Option<Effect>; 3],
}

// What an act says that nothing refuses, besides the machine it leaves: steps are a run alone's.
#[derive(Clone, Copy)]
pub struct Reply {
    pub answer: Option<Answer>, // none while the call is under way
    pub effects: Effects,
    pub steps: u64,
}

// ---- the rows in code

// An answer's row: this paper's number, and the values that it names. The number is for the C interface: a host reads it.
#[derive(Clone, Copy)]
pub struct AnswerColumns {
    pub number: u8,
    pub values: Values,
}

// An effect's row, likewise; whether it lands, and how many it drops (0: it drops none), which the sum of a run adds up.
#[derive(Clone, Copy)]
pub struct ChangeColumns {
    pub number: u8,
    pub values: Values,
    pub lands: bool,
    pub drops: u64,
}

fn no_values() -> Values
    ensures { result ≡ Aw.no_values }
{
    Values {
        token: None,
        count: None,
    }
}

fn a_token(token: u64) -> Values
    ensures { result ≡ Aw.a_token token }
{
    Values {
        token: Some(token),
        count: None,
    }
}

fn a_count(count: u64) -> Values
    ensures { result ≡ Aw.a_count count }
{
    Values {
        token: None,
        count: Some(count),
    }
}

fn answered(number: u8, values: Values) -> AnswerColumns
    ensures { result ≡ record { number = number; values = values } }
{
    AnswerColumns { number, values }
}

pub fn answer_row(a: Answer) -> AnswerColumns
    ensures { result ≡ Aw.columns (Aw.answer_row a) }
{
    match a {
        Answer::Pushed => answered(1, no_values()),
        Answer::Full(token) => answered(2, a_token(token)),
        Answer::Popped(token) => answered(3, a_token(token)),
        Answer::None => answered(4, no_values()),
        Answer::Extended(count) => answered(5, a_count(count as u64)),
        Answer::Stolen(count) => answered(6, a_count(count as u64)),
        Answer::Taken { token, count } => {
            let values = Values {
                token: Some(token),
                count: Some(count as u64),
            };
            answered(7, values)
        }
        Answer::Drain(count) => answered(8, a_count(count as u64)),
        Answer::Item(token) => answered(9, a_token(token)),
        Answer::Done => answered(10, no_values()),
        Answer::Closed => answered(11, no_values()),
        Answer::Busy => answered(12, no_values()),
        Answer::Empty => answered(13, no_values()),
        Answer::Spare(count) => answered(14, a_count(count as u64)),
        Answer::Yes => answered(15, no_values()),
        Answer::No => answered(16, no_values()),
    }
}

fn changed(number: u8, values: Values, lands: bool, drops: u64) -> ChangeColumns
    ensures { result ≡ record { number = number; values = values; lands = lands; drops = drops } }
{
    ChangeColumns {
        number,
        values,
        lands,
        drops,
    }
}

pub fn change_row(c: Change) -> ChangeColumns
    ensures { result ≡ Ef.columns (Ef.change_row c) }
{
    match c {
        Change::Offered(token) => changed(1, a_token(token), false, 0),
        Change::Accepted => changed(2, no_values(), false, 0),
        Change::Popped => changed(3, no_values(), false, 0),
        Change::Booked(count) => changed(4, a_count(count as u64), false, 0),
        Change::Landed(count) => changed(5, a_count(count as u64), true, 0),
        Change::TakeLanded(count) => changed(6, a_count(count as u64), true, 0),
        Change::Drained => changed(7, no_values(), false, 0),
        Change::Dropped(count) => changed(8, a_count(count), false, count),
        Change::Closed => changed(9, no_values(), false, 0),
    }
}
