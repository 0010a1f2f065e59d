// A fresh machine in a block, or refusal 1, 7 or 8.
ghost use Rattle.std.specs.Prelude.{◌≡◌, length};
ghost use Rattle.words.specs.Edition.{width};
ghost use Rattle.tables.specs.Machine.{most};
ghost use Rattle.block.specs.Contents as Hd;
ghost use Rattle.block.specs.Opening as O;

use super::layout::{SIZE, WordsMut};
use super::{layout, store};
use tables::answer::Refusal;
use tables::state::MOST;

// As many as there are parties at most, `none` where there are fewer.
fn first_of<T: Copy>(given: &[T], none: T) -> [T; MOST]
    ensures { result ≡ O.first_of most given.now none }
{
    let n = given.len().min(MOST);
    let mut out = [none; MOST];
    out[..n].copy_from_slice(&given[..n]);
    out
}

// Parties for which no request or no position is given are none: refusal 1.
fn asked(parties: u64, requests: usize, positions: usize) -> u64
    ensures { result ≡ O.asked parties requests positions }
{
    if (requests as u64) < parties || (positions as u64) < parties {
        0
    } else {
        parties
    }
}

// Words too few for a block, and a kind that is none, are refused with 1 and left as they came.
pub fn open(
    block: &mut [u64],
    kind: u64,
    parties: u64,
    requests: &[u64],
    positions: &[u32],
    items: &[u64],
) -> Result<(), Refusal>
    ensures block_is { O.left_at (Hd.code_of result) (Hd.contents_in width most block.new)
        ≡ O.opened width most block.old kind parties requests.now positions.now (length items.now) }
    ensures kept { O.IsUntouched most block.old kind → block.new ≡ block.old }
{
    if block.len() < SIZE || 1 < kind {
        return Err(Refusal::Record);
    }
    let n = asked(parties, requests.len(), positions.len());
    let o = machine::open::open(
        layout::kind_of(kind),
        n,
        first_of(requests, 0),
        first_of(positions, 0),
        items,
    );
    store::store(&mut WordsMut { words: block }, o.machine);
    o.refusal.map_or(Ok(()), Err)
}
