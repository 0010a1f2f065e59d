// The machine changed where its words stand: one party and its two queues are copied out and put back, the record test reads
// each entry in place, and the machine is never copied whole.
ghost use Rattle.std.specs.Prelude.{◌≡◌, ◌<◌, IsErr};
ghost use Rattle.words.specs.Edition.{width};
ghost use Rattle.tables.specs.Machine.{most};
ghost use Rattle.machine.specs.Desk as D;
ghost use Rattle.block.specs.Block as B;
ghost use Rattle.block.specs.Contents as Hd;
ghost use Rattle.block.specs.Reply as Y;

use super::layout::{Words, WordsMut};
use machine::desk::TurnAt;
use tables::answer::Refusal;
use tables::call::Act;

fn put_back(to: &mut WordsMut<'_>, t: TurnAt)
    requires { (t.x < most) × (t.y < most) }
    ensures same { to.new.words.ghost_name ≡ to.old.words.ghost_name }
    ensures contents { Hd.contents_in width most to.new.words.now
        ≡ Hd.changed (Hd.contents_in width most to.old.words.now)
        (D.put_back (B.machine_of width most to.old.words.now) t.x t.y t.turn.desk) (Y.reply_words t.turn.reply) }
{
    to.put_party(t.x, t.turn.desk.party);
    to.put_queue(t.y, t.turn.desk.source);
    to.put_queue(t.x, t.turn.desk.own);
    to.put_reply(t.turn.reply);
}

// Begin, step or run alone, on any words, any items and any party number. A refusal changes no word.
pub fn act(block: &mut [u64], items: &mut [u64], who: u64, act: Act) -> Result<(), Refusal>
    ensures outcome { record { held = Hd.contents_in width most block.new; items = items.new; refusal = Hd.code_of result }
        ≡ Hd.left width most (Hd.contents_in width most block.old) items.old who act }
    ensures kept { IsErr result → block.new ≡ block.old }
{
    let Some(words) = Words::of_block(block) else {
        return Err(Refusal::Record);
    };
    let turn = machine::turn_of(&words, items, who, act)?;
    put_back(&mut WordsMut { words: block }, turn);
    Ok(())
}
