// The machine: a table of party records and queue words, handed in and back. Open it, then begin, step and run alone.
#![tactic(auto)]

ghost use Rattle.std.specs.Prelude.{◌≡◌, ◌%◌, ◌<◌, IfOk};
ghost use Rattle.words.specs.Edition.{width};
ghost use Rattle.tables.specs.Machine.{most};
ghost use Rattle.tables.specs.Step as St;
ghost use Rattle.machine.specs.Desk as D;

use desk::{Desk, Stretches, TurnAt};
use queue::places;
use record::Record;
use tables::answer::Refusal;
use tables::call::{Act, Call, Mark};
use tables::state::{Acted, MOST, Machine};
use turn::Seat;

pub mod desk; // what a step sees of the machine
pub mod effects; // what a step has done, and the few effects of a run alone
pub mod record; // a record of parties and queues, wherever it stands
pub mod turn; // one party's act on its desk
pub mod soundness; // the record test
pub mod row; // for a loop that holds the machine: a step's row, looked up once
pub mod open; // a fresh machine
pub mod rest; // what rests in a queue

// A place of the table for any number: the number itself, where it is in range.
pub fn index(n: u64) -> usize
    ensures { result ≡ n % most }
{
    (n % (MOST as u64)) as usize
}

// Begin, step or run alone, on a record wherever it stands: what is handed on is one party and two queues. The record is only
// read; what the act leaves of its party and queues comes back, for whoever holds the record to store.
pub fn turn_of<R: Record>(
    held: &R,
    items: &mut [u64],
    who: u64,
    act: Act,
) -> Result<TurnAt, Refusal>
    ensures acted { D.left_by (R.machine held.now) result items.new ≡ St.acted width most (R.machine held.now) items.old who act }
    ensures within { IfOk result (λ t. (t.x < most) × (t.y < most)) }
{
    let Some(starts) = soundness::starts_of(held, items.len()) else {
        return Err(Refusal::Record);
    };
    let parties = held.parties();
    turn::there(parties, who)?;
    let x = who as usize;
    let party = held.party(x);
    let from = places::source_of(who, party.place);
    let y = from as usize;
    let at = Stretches {
        who,
        from,
        own: starts[x],
        source: starts[y],
    };
    let desk = Desk {
        party,
        own: held.queue(x),
        source: held.queue(y),
    };
    let turn = Seat { at, desk }.turned(parties, items, act)?;
    Ok(TurnAt { x, y, turn })
}

// Begin, step or run alone, on any record, any items and any party number. The record goes in once and comes back once; refused, it
// comes back as it was.
pub fn apply(m: Machine, items: &mut [u64], who: u64, act: Act) -> Acted
    ensures { St.result_of result items.new ≡ St.acted width most m items.old who act }
{
    let mut machine = m;
    let reply = match turn_of(&machine, items, who, act) {
        Ok(t) => {
            put_back(&mut machine, t);
            Ok(t.turn.reply)
        }
        Err(refusal) => Err(refusal),
    };
    Acted { machine, reply }
}

fn put_back(m: &mut Machine, t: TurnAt)
    requires { (t.x < most) × (t.y < most) }
    ensures { m.new ≡ D.put_back m.old t.x t.y t.turn.desk }
{
    m.party[t.x] = t.turn.desk.party;
    m.queue[t.y] = t.turn.desk.source;
    m.queue[t.x] = t.turn.desk.own;
}

// Begin a call: it touches no word.
pub fn begin(m: Machine, items: &mut [u64], who: u64, call: Call) -> Acted
    ensures { St.result_of result items.new ≡ St.of_outcome (St.begin width most m items.old who call) }
{
    apply(m, items, who, Act::Begin(call))
}

// One step of a call, with its mark.
pub fn step(m: Machine, items: &mut [u64], who: u64, mark: Mark) -> Acted
    ensures { St.result_of result items.new ≡ St.of_outcome (St.step width most m items.old who mark) }
{
    apply(m, items, who, Act::Step(mark))
}

// Run alone: plain steps of one party, up to a budget.
pub fn run_alone(m: Machine, items: &mut [u64], who: u64, budget: u64) -> Acted
    ensures { St.result_of result items.new ≡ St.of_alone (St.alone width most m items.old who budget) }
{
    apply(m, items, who, Act::Alone(budget))
}
