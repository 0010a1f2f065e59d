// One party's act on its desk.
ghost use Rattle.std.specs.Prelude.{◌≡◌, true, List, ℕ, ◌+◌, ◌<◌, ◌^◌, length, ltb};
ghost use Rattle.words.specs.Edition.{width};
ghost use Rattle.words.specs.Word.{pick};
ghost use Rattle.tables.specs.Access as X;
ghost use Rattle.tables.specs.Refusal.{told};
ghost use Rattle.tables.specs.Step as St;
ghost use Rattle.machine.specs.Desk as D;

use super::desk::{Desk, Reached, Stepped, Stretches, Turn, begun};
use super::effects;
use queue::memory::Performed;
use queue::places;
use tables::access::{Access, Next};
use tables::answer;
use tables::answer::{Answer, Effects, Refusal, Reply};
use tables::call::{Act, Call, Mark};
use tables::place::Place;
use tables::state::Queue;

pub fn is_weak(mark: Mark) -> bool
    ensures { result ≡ St.is_weak mark }
{
    mark == Mark::Weak
}

// A party's desk, and where its queues' stretches start. `Ready` is a premise of its methods and no ghost field: it speaks of the
// items too, and a seat that held them would have to say in each clause that they are the same ones, which is no plainer.
#[derive(Clone, Copy)]
pub struct Seat {
    pub at: Stretches,
    pub desk: Desk,
}

// ---- what is said

fn turn_with(desk: Desk, answer: Option<Answer>, effects: Effects, steps: u64) -> Turn
    ensures { result ≡ D.turn_with desk answer effects steps }
{
    let reply = Reply {
        answer,
        effects,
        steps,
    };
    Turn { desk, reply }
}

// Nothing is done yet, or nothing but begun.
fn as_came(desk: Desk) -> Turn
    ensures { result ≡ D.as_came desk }
{
    turn_with(desk, None, effects::no_effects(), 0)
}

// A run alone stops at an answer, or before a step that needs a number or end.
fn stops(answer: Option<Answer>, place: Place) -> bool
    ensures { result ≡ St.stops_at answer place }
{
    answer.is_some() || places::wishes(places::wish_of(place))
}

// ---- refusals, in their orders, on a record that passed its test: whoever has another refuses it before

// The party is there.
pub(super) fn there(parties: u32, who: u64) -> Result<(), Refusal>
    ensures { result ≡ told (pick (ltb who parties) 0 2) tt }
{
    if who < parties as u64 {
        Ok(())
    } else {
        Err(Refusal::Party)
    }
}

// It has no call, and the call's source is there.
fn may_start(parties: u32, who: u64, place: Place, call: Call) -> Result<(), Refusal>
    ensures { result ≡ told (St.start_refusal parties who place call) tt }
{
    if !places::is_idle(place) {
        return Err(Refusal::Busy);
    }
    if places::call_source(who, call) < parties as u64 {
        Ok(())
    } else {
        Err(Refusal::Source)
    }
}

// It has a call.
fn may_run(place: Place) -> Result<(), Refusal>
    ensures { result ≡ told (St.run_refusal place) tt }
{
    if places::is_idle(place) {
        Err(Refusal::Idle)
    } else {
        Ok(())
    }
}

// It has a call, and the mark fits the row's access.
fn may_make(access: Access, mark: Mark, place: Place) -> Result<(), Refusal>
    ensures { result ≡ told (St.mark_refusal access mark place) tt }
{
    may_run(place)?;
    if places::mark_fits(places::wish_of(place), places::is_cas(access), mark) {
        Ok(())
    } else {
        Err(Refusal::Mark)
    }
}

pub fn may_begin(parties: u32, who: u64, place: Place, call: Call) -> Result<(), Refusal>
    ensures { result ≡ told (St.begin_order true parties who place call) tt }
{
    there(parties, who)?;
    may_start(parties, who, place, call)
}

pub fn may_step(
    parties: u32,
    who: u64,
    access: Access,
    mark: Mark,
    place: Place,
) -> Result<(), Refusal>
    ensures { result ≡ told (St.step_order true parties who access mark place) tt }
{
    there(parties, who)?;
    may_make(access, mark, place)
}

// ---- one step

impl Seat {
    // The one look at the row: which queue the step reaches, where its stretch starts, and the access it makes there.
    fn reached(self, mark: Mark) -> Reached
        ensures { result ≡ D.reach width self.at self.desk mark }
    {
        let context = self.desk.context(mark);
        let want = queue::wants(self.desk.party.place, context);
        let away = self.at.is_away(want.whose);
        Reached {
            context,
            access: want.access,
            away,
            queue: self.desk.queue(away),
            base: self.at.base(away),
        }
    }

    // The place after the access, the answer and the effect.
    fn follows(self, r: Reached, queue: Queue, next: Next) -> Stepped
        ensures { result ≡ D.follows self.at self.desk r queue next }
    {
        let site = self.at.site(r.away);
        Stepped {
            desk: self.desk.with(r.away, queue, next),
            answer: next.answer,
            effect: effects::effect_of(self.at.who, site, self.at.from, next.change),
        }
    }

    // The step's access is made: on from there.
    fn went(self, r: Reached, done: Performed) -> Stepped
        ensures { (slots : List ℕ) → result ≡ D.went width self.at self.desk r (X.shows done.queue slots done.seen) }
    {
        let next = queue::advance(self.desk.party.place, r.context, done.seen);
        self.follows(r, done.queue, next)
    }

    // One step that nothing refuses: only the reached queue's own stretch is lent on.
    fn taken(self, r: Reached, items: &mut [u64], mark: Mark) -> Stepped
        requires ready { D.Ready self.at self.desk (length items.old) }
        requires reached { r ≡ D.reach width self.at self.desk mark }
        ensures { D.with result items.new ≡ D.desk_step width self.at self.desk items.old mark }
    {
        let end = r.base + r.queue.capacity as usize;
        let slots = &mut items[r.base..end];
        let done = queue::memory::perform(r.queue, slots, r.access, is_weak(mark));
        self.went(r, done)
    }
}

// ---- run alone

// One plain step more.
fn onward(at: Stretches, t: Turn, items: &mut [u64]) -> Turn
    requires ready { D.Ready at t.desk (length items.old) }
    requires roomy { D.Roomy t.reply.effects }
    requires few_steps { t.reply.steps + 1 < 2 ^ 64 }
    ensures { D.with result items.new ≡ D.turn_on t (D.desk_step width at t.desk items.old Mark.Plain) }
{
    let seat = Seat { at, desk: t.desk };
    let o = seat.taken(seat.reached(Mark::Plain), items, Mark::Plain);
    let effects = effects::note(t.reply.effects, o.effect);
    turn_with(o.desk, o.answer, effects, t.reply.steps + 1)
}

// ---- an act of a party that is there, on a record that passed its test; refused, it leaves the items as they were

impl Seat {
    // The party is stepped until it answers, needs a number or end, or has spent its budget. By a rule of the
    // project a loop whose break yields the answer and the steps, and no `for` (docs/READING.md).
    fn alone(self, items: &mut [u64], budget: u64) -> Turn
        requires { D.Ready self.at self.desk (length items.old) }
        ensures { D.with result items.new ≡ D.of_ran (D.desk_runs width self.at budget (D.ran_none self.desk items.old)) }
    {
        let mut t = as_came(self.desk);
        loop {
            if t.reply.steps == budget || stops(t.reply.answer, t.desk.party.place) {
                break t;
            }
            t = onward(self.at, t, &mut *items);
        }
    }

    fn begin(self, parties: u32, call: Call) -> Result<Turn, Refusal>
        ensures { (xs : List ℕ) → D.with result xs ≡ D.begin_turn parties self.at self.desk xs call }
    {
        let desk = self.desk;
        may_start(parties, self.at.who, desk.party.place, call)?;
        let party = begun(desk.party, desk.own, call);
        Ok(as_came(Desk { party, ..desk }))
    }

    fn step(self, items: &mut [u64], mark: Mark) -> Result<Turn, Refusal>
        requires { D.Ready self.at self.desk (length items.old) }
        ensures { D.with result items.new ≡ D.step_turn width self.at self.desk items.old mark }
    {
        let r = self.reached(mark);
        may_make(r.access, mark, self.desk.party.place)?;
        let o = self.taken(r, items, mark);
        let effects = effects::note(effects::no_effects(), o.effect);
        Ok(turn_with(o.desk, o.answer, effects, 0))
    }

    fn run(self, items: &mut [u64], budget: u64) -> Result<Turn, Refusal>
        requires { D.Ready self.at self.desk (length items.old) }
        ensures { D.with result items.new ≡ D.alone_turn width self.at self.desk items.old budget }
    {
        may_run(self.desk.party.place)?;
        Ok(self.alone(items, budget))
    }

    // `Act` is a public enum that a host hands over: one match, and no closures.
    pub(super) fn turned(self, parties: u32, items: &mut [u64], act: Act) -> Result<Turn, Refusal>
        requires { D.Ready self.at self.desk (length items.old) }
        ensures { D.with result items.new ≡ D.turned width parties self.at self.desk items.old act }
    {
        match act {
            Act::Begin(call) => self.begin(parties, call),
            Act::Step(mark) => self.step(items, mark),
            Act::Alone(budget) => self.run(items, budget),
        }
    }
}
