// What a step has done, with the party and the queue it names, and the few effects of a run alone.
ghost use Rattle.std.specs.Prelude.{◌≡◌, [], ◌+◌, ◌<◌, ◌^◌};
ghost use Rattle.tables.specs.Effect as Ef;
ghost use Rattle.tables.specs.Step as St;
ghost use Rattle.machine.specs.Note as Nt;

use tables::answer;
use tables::answer::{Change, Effect, Effects};

fn named(party: u64, queue: u64, change: Change) -> Effect
    ensures { result ≡ record { party = party; queue = queue; change = change } }
{
    Effect {
        party,
        queue,
        change,
    }
}

// An effect, if any, names its party and queue; landed names the source.
pub fn effect_of(party: u64, queue: u64, source: u64, change: Option<Change>) -> Option<Effect>
    ensures { result ≡ Ef.effect_of party queue source change }
{
    let change = change?;
    let columns = answer::change_row(change);
    let site = if columns.lands { source } else { queue };
    Some(named(party, site, change))
}

pub fn no_effects() -> Effects
    ensures { result ≡ St.three_effects [] }
{
    Effects {
        count: 0,
        list: [None; 3],
    }
}

fn drops(e: Effect) -> u64
    ensures { result ≡ Ef.drops_of e.change }
{
    answer::change_row(e.change).drops
}

// Whether two effects in a row are dropped ones, which are counted as one.
fn joins(last: Effect, e: Effect) -> bool
    ensures { result ≡ St.joins last e }
{
    0 < drops(last) && 0 < drops(e)
}

fn merged(last: Effect, e: Effect) -> Effect
    requires { Ef.drops_of last.change + Ef.drops_of e.change < 2 ^ 64 }
    ensures { result ≡ St.merged last e }
{
    named(e.party, e.queue, Change::Dropped(drops(last) + drops(e)))
}

fn with(l: Effects, i: usize, e: Effect, count: u32) -> Effects
    requires { i < 3 }
    ensures { result ≡ Nt.with' l i e count }
{
    let mut list = l.list;
    list[i] = Some(e);
    Effects { count, list }
}

// The effects with one more. A fourth never comes: a call has three at most.
pub fn note(l: Effects, e: Option<Effect>) -> Effects
    requires { Nt.CountFits l e }
    ensures { result ≡ Nt.note l e }
{
    let Some(e) = e else {
        return l;
    };
    let n = l.count as usize;
    if n == 0 {
        return with(l, 0, e, 1);
    }
    if 3 < n {
        return l;
    }
    if let Some(last) = l.list[n - 1]
        && joins(last, e)
    {
        return with(l, n - 1, merged(last, e), l.count);
    }
    if n == 3 {
        return l;
    }
    with(l, n, e, l.count + 1)
}
