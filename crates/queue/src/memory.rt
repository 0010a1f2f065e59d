// One access to a queue's words or slots: no step makes one elsewhere.
ghost use Rattle.std.specs.Prelude.{◌≡◌, List, ℕ, length};
ghost use Rattle.words.specs.Word.{Pow};
ghost use Rattle.tables.specs.Access as X;

use tables::access::{Access, Seen};
use tables::state::Queue;

// What an access leaves of the words, and shows. The slots are lent: what it leaves of them stands there.
#[derive(Clone, Copy)]
pub struct Performed {
    pub queue: Queue,
    pub seen: Seen,
}

// What an access shows that shows nothing.
const NOTHING: Seen = Seen {
    word: 0,
    packed: 0,
    token: 0,
    stored: true,
};

// A weak exchange may fail anyway; a failure hands back the word as it is.
fn compare_exchange(queue: Queue, old: u64, new: u64, weak: bool) -> Performed
    ensures { (xs : List ℕ) → X.shows result.queue xs result.seen ≡ X.perform queue xs (Access.Cas old new) weak }
{
    let seen = Seen {
        packed: queue.packed,
        stored: !weak && queue.packed == old,
        ..NOTHING
    };
    if seen.stored {
        Performed {
            queue: Queue {
                packed: new,
                ..queue
            },
            seen,
        }
    } else {
        Performed { queue, seen }
    }
}

// One access to a queue, whose stretch of the lent items is `items`.
pub fn perform(queue: Queue, items: &mut [u64], access: Access, weak: bool) -> Performed
    requires pow { Pow queue.capacity }
    requires length_is { length items.old ≡ queue.capacity }
    ensures { X.shows result.queue items.new result.seen
        ≡ X.perform queue items.old access weak }
{
    let mut left = queue;
    let mut seen = NOTHING;
    match access {
        Access::Touch => {}
        Access::LoadPushes => seen.word = queue.pushes,
        Access::LoadPacked => seen.packed = queue.packed,
        Access::LoadCompleted => seen.word = queue.completed,
        Access::StorePushes(word) => left.pushes = word,
        Access::StoreCompleted(word) => left.completed = word,
        Access::Cas { old, new } => return compare_exchange(queue, old, new, weak),
        Access::Read(at) => seen.token = items[words::slot_of(at, queue.capacity).0 as usize],
        Access::Write(at, token) => items[words::slot_of(at, queue.capacity).0 as usize] = token,
    }
    Performed { queue: left, seen }
}
