// Many lines of a piece of input.
ghost use Rattle.std.specs.Prelude.{◌≡◌, ◌+◌, ◌≤◌, true, [], length};
ghost use Rattle.words.specs.Word.{Pow};
ghost use Rattle.machine.specs.Look.{Fit};
ghost use Rattle.text.specs.Session.{is_running, state_of};
ghost use Rattle.text.specs.Feeding as F;
ghost use Rattle.text.specs.Feeding.{Gets};
ghost use Rattle.text.specs.Stepping as P;

use super::session::Session;
use super::write::Out;
use super::{Line, find};
use machine::desk::{Desk, begun, moved};
use machine::row::Look;
use machine::{row, turn};
use queue::memory::Performed;
use queue::places;
use tables::access::Access;
use tables::answer::Refusal;
use tables::call::Mark;
use tables::state::{MOST, Machine, Queue};

// The access that a step makes of the queue that it reaches, whose stretch of the items starts at `base`.
fn reach(queue: Queue, items: &mut [u64], base: usize, access: Access, mark: Mark) -> Performed
    requires pow { Pow queue.capacity }
    requires within { base + queue.capacity ≤ length items.old }
    ensures { P.Reaches queue items.old base access mark items.new result }
{
    let end = base + queue.capacity as usize;
    queue::memory::perform(queue, &mut items[base..end], access, turn::is_weak(mark))
}

// Whole lines of the piece from a place on, while the buffer has room for one more. The machine's record is known to be sound, and a
// line reads one party and two queues and stores one party and one queue back.
pub fn lines(
    session: &mut Session,
    machine: &mut Machine,
    starts: [usize; MOST],
    items: &mut [u64],
    piece: &[u8],
    from: usize,
    out: &mut Out,
) -> usize
    requires fit { Fit machine.old starts (length items.old) }
    requires running { is_running session.old.stage ≡ true }
    requires within { from ≤ length piece.now }
    ensures { Gets piece.now (F.flow (state_of session.old machine.old items.old) []) from out.old
        (F.flow (state_of session.new machine.new items.new) []) result out.new }
{
    let mut m = *machine;
    let mut line = session.line;
    let mut from = from;
    // No index is counted: a turn goes on by a line.
    while out.has_room() {
        let Some(found) = find::next_line(piece, from) else {
            break;
        };
        from = found.next;
        line = line.wrapping_add(1);
        match found.line {
            Line::Begin(who, call) => {
                let x = machine::index(who);
                let party = m.party[x];
                match turn::may_begin(m.parties, who, party.place, call) {
                    Ok(()) => m.party[x] = begun(party, m.queue[x], call),
                    Err(refusal) => out.refused(line, refusal),
                }
            }
            Line::Step(who, mark) => {
                let x = machine::index(who);
                let party = m.party[x];
                let place = party.place; // in a local: read where it stands, a line costs some 30 instructions more
                let y = machine::index(places::source_of(who, place));
                let desk = Desk {
                    party,
                    own: m.queue[x],
                    source: m.queue[y],
                };
                let context = desk.context(mark);
                match row::look_up(m.parties, who, x, y, place, context) {
                    Ok(Look { site, access }) => {
                        let done = reach(m.queue[site], items, starts[site], access, mark);
                        let next = queue::advance(place, context, done.seen);
                        m.party[x] = moved(next);
                        m.queue[site] = done.queue;
                        if let Some(answer) = next.answer {
                            out.answer(who, answer);
                        }
                    }
                    Err(refusal) => out.refused(line, refusal),
                }
            }
            Line::Machine(_, _) | Line::Queue { .. } | Line::Malformed => {
                out.refused(line, Refusal::Line)
            }
        }
    }
    *machine = m;
    session.line = line;
    from
}
