// What is asked of a machine: calls with their count rules, and the mark of a step.

// How many to book of the n that a booking sees. `Given` is the number carried by the step that reads n.
#[derive(Clone, Copy)]
pub enum Rule {
    All,
    Half,
    Fixed(u64),
    Given,
}

// What a step line says after the party: nothing, weak, given N (a number or a token), end.
#[derive(Clone, Copy, PartialEq, Eq)]
pub enum Mark {
    Plain,
    Weak,
    Carry(u64),
    End,
}

// The calls that a party can begin.
#[derive(Clone, Copy)]
pub enum Call {
    Push(u64),
    Pop,
    Extend,
    Drain(Rule),
    Next,
    Drop,
    Steal { source: u64, rule: Rule },
    Take { source: u64, rule: Rule },
    Spare,
    Empty,
}

// The three things that can be done with a party: begin a call, make one step, run alone up to a budget of steps.
#[derive(Clone, Copy)]
pub enum Act {
    Begin(Call),
    Step(Mark),
    Alone(u64),
}
