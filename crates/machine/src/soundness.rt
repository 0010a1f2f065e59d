// The record test: refusal 1, party by party, and where each queue's stretch of the items starts.
ghost use Rattle.std.specs.Prelude.{◌≡◌, ◌≤◌, ◌<◌, is_some, IfSome, length};
ghost use Rattle.words.specs.Edition.{width};
ghost use Rattle.tables.specs.Machine.{most, queue_at};
ghost use Rattle.tables.specs.Step as St;
ghost use Rattle.machine.specs.Look as L;

use super::record::Record;
use queue::places;
use tables::state::{MOST, Queue};

// One party and its own queue, read before: a capacity, a source that is there, and a place that the two queues' tables have.
fn fine<R: Record>(held: &R, parties: u32, i: usize, own: Queue) -> bool
    requires few { (R.machine held.now).parties ≤ most }
    requires there { i < most }
    requires parties_is { parties ≡ (R.machine held.now).parties }
    requires own_is { own ≡ queue_at (R.machine held.now) i }
    ensures fine_is { result ≡ St.sound_at width (R.machine held.now) i }
    ensures parties_many { length (R.machine held.now).party ≡ most }
{
    let place = held.party(i).place;
    let source = places::source_of(i as u64, place);
    words::is_capacity(own.capacity)
        && source < parties as u64
        && places::has_place(own.kind, held.queue(source as usize).kind, place)
}

// The record test, and what it finds: where each queue's stretch starts, which is where the capacities before it end. No act changes a
// capacity, so the starts hold for all the acts that follow.
pub fn starts_of<R: Record>(held: &R, lent: usize) -> Option<[usize; MOST]>
    ensures passes { is_some result ≡ St.sound width most (R.machine held.now) lent }
    ensures fit { IfSome result (λ at. L.Fit (R.machine held.now) at lent) }
{
    let parties = held.parties();
    if parties == 0 || MOST < parties as usize {
        return None;
    }
    let mut at: [usize; MOST] = [0; MOST];
    let mut total: usize = 0;
    for i in 0..parties as usize {
        let own = held.queue(i);
        if !fine(held, parties, i, own) {
            return None;
        }
        at[i] = total;
        total += own.capacity as usize;
    }
    if total <= lent { Some(at) } else { None }
}
