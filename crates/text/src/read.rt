// A line read from its bytes, field by field: each function takes the fields that are still to be read.
#![tactic(auto, using(crate::proofs::Words::words))]

ghost use Rattle.std.specs.Prelude.{◌≡◌};
ghost use Rattle.std.specs.Iterator.{YieldsFirstRef, item_count};
ghost use Rattle.words.specs.Edition.{width};
ghost use Rattle.text.specs.Fields.{left};
ghost use Rattle.text.specs.Line as L;
ghost use Rattle.text.specs.Number.{number_of};

use super::{Aim, Line, scan};
use tables::call::{Call, Mark, Rule};
use tables::state::Kind;

// The longest line, its newline apart.
pub const LONGEST: usize = 120;

// The fields of a line that are still to be read: past the last there is no rest, and an empty rest is an empty field.
#[derive(Clone, Copy)]
pub struct Fields<'a> {
    pub rest: Option<&'a [u8]>,
}

impl<'a> Iterator for Fields<'a> {
    type Item = &'a [u8];

    ghost next_gives = { YieldsFirstRef left };

    ghost remaining = { item_count left };

    // A field ends before the next tab, or with the line.
    fn next(&mut self) -> Option<&'a [u8]> {
        let line = self.rest?;
        let end = scan::find(line, 0, line.len(), b'\t');
        self.rest = if end < line.len() {
            Some(&line[end + 1..])
        } else {
            None
        };
        Some(&line[..end])
    }
}

impl Fields<'_> {
    // What was read, where the line ends here.
    fn at_end<T: Copy>(self, read: T) -> Option<T>
        ensures { result ≡ L.at_end (left self.entry) read }
    {
        match self.rest {
            Some(_) => None,
            None => Some(read),
        }
    }
}

// Leading zeros are digits; a number that would not fit is none.
fn number(s: &[u8]) -> Option<u64>
    ensures { result ≡ number_of s.now }
{
    if s.is_empty() {
        return None;
    }
    let mut value: u64 = 0;
    for &b in s {
        if !b.is_ascii_digit() {
            return None;
        }
        value = value.checked_mul(10)?.checked_add((b - b'0') as u64)?;
    }
    Some(value)
}

fn last_number(mut fields: Fields<'_>) -> Option<u64>
    ensures { result ≡ L.last_number (left fields.entry) }
{
    let last = number(fields.next()?)?;
    fields.at_end(last)
}

fn rule(mut fields: Fields<'_>) -> Option<Rule>
    ensures { result ≡ L.rule_of (left fields.entry) }
{
    match fields.next()? {
        b"all" => fields.at_end(Rule::All),
        b"half" => fields.at_end(Rule::Half),
        b"fixed" => Some(Rule::Fixed(last_number(fields)?)),
        b"given" => fields.at_end(Rule::Given),
        _ => None,
    }
}

fn aim(mut fields: Fields<'_>) -> Option<Aim>
    ensures { result ≡ L.aim_of (left fields.entry) }
{
    let source = number(fields.next()?)?;
    let rule = rule(fields)?;
    Some(Aim { source, rule })
}

fn call(mut fields: Fields<'_>) -> Option<Call>
    ensures { result ≡ L.call_of (left fields.entry) }
{
    match fields.next()? {
        b"push" => Some(Call::Push(last_number(fields)?)),
        b"pop" => fields.at_end(Call::Pop),
        b"extend" => fields.at_end(Call::Extend),
        b"drain" => Some(Call::Drain(rule(fields)?)),
        b"next" => fields.at_end(Call::Next),
        b"drop" => fields.at_end(Call::Drop),
        b"steal" => {
            let Aim { source, rule } = aim(fields)?;
            Some(Call::Steal { source, rule })
        }
        b"take" => {
            let Aim { source, rule } = aim(fields)?;
            Some(Call::Take { source, rule })
        }
        b"spare" => fields.at_end(Call::Spare),
        b"empty" => fields.at_end(Call::Empty),
        _ => None,
    }
}

fn mark(mut fields: Fields<'_>) -> Option<Mark>
    ensures { result ≡ L.mark_of (left fields.entry) }
{
    let Some(word) = fields.next() else {
        return Some(Mark::Plain);
    };
    match word {
        b"weak" => fields.at_end(Mark::Weak),
        b"given" => Some(Mark::Carry(last_number(fields)?)),
        b"end" => fields.at_end(Mark::End),
        _ => None,
    }
}

// ---- lines

fn kind(word: &[u8]) -> Option<Kind>
    ensures { result ≡ L.kind_of word.now }
{
    match word {
        b"lifo" => Some(Kind::Lifo),
        b"fifo" => Some(Kind::Fifo),
        _ => None,
    }
}

fn machine(mut fields: Fields<'_>) -> Option<Line>
    ensures { result ≡ L.machine_line (left fields.entry) }
{
    let kind = kind(fields.next()?)?;
    let parties = last_number(fields)?;
    Some(Line::Machine(kind, parties))
}

fn queue(mut fields: Fields<'_>) -> Option<Line>
    ensures { result ≡ L.queue_line width (left fields.entry) }
{
    let request = number(fields.next()?)?;
    let position = words::word_of(last_number(fields)?)?;
    Some(Line::Queue { request, position })
}

fn begin(mut fields: Fields<'_>) -> Option<Line>
    ensures { result ≡ L.begin_line (left fields.entry) }
{
    let party = number(fields.next()?)?;
    let call = call(fields)?;
    Some(Line::Begin(party, call))
}

fn step(mut fields: Fields<'_>) -> Option<Line>
    ensures { result ≡ L.step_line (left fields.entry) }
{
    let party = number(fields.next()?)?;
    let mark = mark(fields)?;
    Some(Line::Step(party, mark))
}

fn line(mut fields: Fields<'_>) -> Option<Line>
    ensures { result ≡ L.line_of width (left fields.entry) }
{
    match fields.next()? {
        b"step" => step(fields),
        b"begin" => begin(fields),
        b"queue" => queue(fields),
        b"machine" => machine(fields),
        _ => None,
    }
}

// A line, its newline apart: any bytes at all.
pub fn read_line(s: &[u8]) -> Line
    ensures { result ≡ L.read_of width s.now }
{
    if LONGEST < s.len() {
        return Line::Malformed;
    }
    line(Fields { rest: Some(s) }).unwrap_or(Line::Malformed)
}
