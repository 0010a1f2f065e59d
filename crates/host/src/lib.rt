// The machine where it stands: an entry for a host that lends it, and does not hand it over.
#![tactic(auto)]

ghost use Rattle.std.specs.Prelude.{◌≡◌};
ghost use Rattle.words.specs.Edition.{width};
ghost use Rattle.tables.specs.Machine.{most};
ghost use Rattle.tables.specs.Step as St;

use tables::answer::{Refusal, Reply};
use tables::call::Act;
use tables::state::Machine;

pub mod numbers; // calls and marks by number
pub mod fault; // why nothing was done
pub mod export; // what a host in another language links

pub fn act_in_place(
    m: &mut Machine,
    items: &mut [u64],
    party: u64,
    act: Act,
) -> Result<Reply, Refusal>
    ensures { record { machine = m.new; items = items.new; reply = result }
        ≡ St.acted width most m.old items.old party act }
{
    // One assignment a line: it is the program that proofs/InPlace.antt walks.
    let a = machine::apply(*m, items, party, act);
    let n = a.machine;
    *m = n;
    a.reply
}
