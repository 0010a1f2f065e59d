// A whole machine written into a block: only opening does it.
ghost use Rattle.std.specs.Prelude.{◌≡◌, ◌≤◌, drop};
ghost use Rattle.words.specs.Edition.{width};
ghost use Rattle.tables.specs.Machine.{most};
ghost use Rattle.block.specs.Block as B;
ghost use Rattle.block.specs.Contents as Hd;
ghost use Rattle.block.specs.Opening as O;

use super::layout::{LAYOUT, PARTIES_BASE, SEAL, WordsMut};
use tables::state::{MOST, Machine};

// The seal, the layout, the parties, and no answer yet.
fn head_words(parties: u32) -> [u64; PARTIES_BASE]
    ensures { result ≡ B.head_words parties }
{
    let mut out: [u64; PARTIES_BASE] = [0; PARTIES_BASE];
    out[0] = SEAL;
    out[1] = LAYOUT;
    out[2] = parties as u64;
    out
}

pub fn store(to: &mut WordsMut<'_>, m: Machine)
    requires { m.parties ≤ most }
    ensures same { to.new.words.ghost_name ≡ to.old.words.ghost_name }
    ensures contents { Hd.contents_in width most to.new.words.now ≡ O.fresh (drop (B.size most) to.old.words.now) m }
{
    to.put(0, &head_words(m.parties));
    for i in 0..MOST {
        to.put_party(i, m.party[i]);
        to.put_queue(i, m.queue[i]);
    }
}
