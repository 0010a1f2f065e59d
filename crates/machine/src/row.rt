// For a loop that holds the machine in one local, its record tested once: a step's row, looked up once.
ghost use Rattle.std.specs.Prelude.{◌≡◌};
ghost use Rattle.words.specs.Edition.{width};
ghost use Rattle.tables.specs.Step as St;
ghost use Rattle.machine.specs.Look as L;

use super::turn;
use tables::access::{Access, Context, Whose};
use tables::answer::Refusal;
use tables::place::Place;

// A step's row looked up on a record that passed the record test: the queue that it reaches and the access that it makes there.
#[derive(Clone, Copy)]
pub struct Look {
    pub site: usize,
    pub access: Access,
}

fn site_of(whose: Whose, x: usize, y: usize) -> usize
    ensures { result ≡ St.site whose x y }
{
    match whose {
        Whose::Own => x,
        Whose::Source => y,
    }
}

// x and y are the own queue's place of the table and the source's.
pub fn look_at(x: usize, y: usize, place: Place, context: Context) -> Look
    ensures { result ≡ L.look_at width x y place context }
{
    let want = queue::wants(place, context);
    Look {
        site: site_of(want.whose, x, y),
        access: want.access,
    }
}

// The table is asked before the refusals, since one of them depends on the access.
pub fn look_up(
    parties: u32,
    who: u64,
    x: usize,
    y: usize,
    place: Place,
    context: Context,
) -> Result<Look, Refusal>
    ensures { result ≡ L.look width parties who x y place context }
{
    let look = look_at(x, y, place, context);
    turn::may_step(parties, who, look.access, context.mark, place)?;
    Ok(look)
}
