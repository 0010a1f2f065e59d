// Calls and marks as a host in another language names them. Between types of other crates, for which no `TryFrom` can stand here. What
// names a call or a mark is said apart from which it names: each is a public function whose answer on every number is promised.
ghost use Rattle.std.specs.Prelude.{◌≡◌};
ghost use Rattle.block.specs.PlaceWords.{where_known};
ghost use Rattle.host.specs.Numbers as N;

use tables::call::{Call, Mark, Rule};

fn with_rule(call: u64, source: u64, rule: Rule) -> Call
    ensures { result ≡ N.ruled_call call source rule }
{
    match call {
        3 => Call::Steal { source, rule },
        4 => Call::Take { source, rule },
        _ => Call::Drain(rule),
    }
}

fn without_rule(call: u64, number: u64) -> Call
    ensures { result ≡ N.plain_call call number }
{
    match call {
        0 => Call::Push(number),
        1 => Call::Extend,
        2 => Call::Spare,
        6 => Call::Next,
        7 => Call::Drop,
        8 => Call::Pop,
        _ => Call::Empty,
    }
}

fn has_rule(call: u64) -> bool
    ensures { result ≡ N.has_rule call }
{
    (3..6).contains(&call)
}

pub fn call_of(call: u64, source: u64, rule: u64, number: u64) -> Call
    ensures { result ≡ N.call_of call source rule number }
{
    if has_rule(call) {
        with_rule(call, source, block::read::rule_of(rule, number))
    } else {
        without_rule(call, number)
    }
}

pub fn call_known(call: u64, rule: u64) -> bool
    ensures { result ≡ N.call_known call rule }
{
    if has_rule(call) { rule < 4 } else { call < 10 }
}

// The call that the numbers name, if they name one. Beside `call_of`, which reads every number.
pub fn known_call(call: u64, source: u64, rule: u64, number: u64) -> Option<Call>
    ensures { result ≡ where_known (N.call_known call rule) (N.call_of call source rule number) }
{
    if call_known(call, rule) {
        Some(call_of(call, source, rule, number))
    } else {
        None
    }
}

pub fn mark_of(mark: u64, number: u64) -> Mark
    ensures { result ≡ N.mark_of mark number }
{
    match mark {
        0 => Mark::Plain,
        1 => Mark::Weak,
        2 => Mark::Carry(number),
        _ => Mark::End,
    }
}

// The mark that the number names, if it names one. Beside `mark_of`, which reads every number.
pub fn known_mark(mark: u64, number: u64) -> Option<Mark>
    ensures { result ≡ where_known (N.mark_known mark) (N.mark_of mark number) }
{
    if mark < 4 {
        Some(mark_of(mark, number))
    } else {
        None
    }
}
