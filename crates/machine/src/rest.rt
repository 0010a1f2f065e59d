// What rests in a queue, token by token.
ghost use Rattle.std.specs.Prelude.{◌≡◌, ◌≤◌, ltb, get_or};
ghost use Rattle.words.specs.Edition.{width};
ghost use Rattle.words.specs.Word.{pick};
ghost use Rattle.tables.specs.Machine.{most, base_of};
ghost use Rattle.tables.specs.Lists.{head_of, tail_of};
ghost use Rattle.machine.specs.Rest.{nothing_rests, resting_of, tokens_of};

use super::record::Record;
use tables::state::{Kind, MOST, Queue};
use words::Position;

// A queue's stretch of the items: where it starts, its length, and which positions rest.
#[derive(Clone, Copy, Default)]
pub struct Resting {
    pub base: usize,
    pub capacity: u32,
    pub head: u32,
    pub count: u32,
}

// Where queue n's stretch starts: the capacities before it together.
fn base_of<R: Record>(held: &R, n: usize) -> usize
    requires { n ≤ most }
    ensures { result ≡ base_of n (R.machine held.now).queue }
{
    let mut base: usize = 0;
    for i in 0..n {
        base += held.queue(i).capacity as usize;
    }
    base
}

pub fn head_of(queue: Queue) -> u32
    ensures { result ≡ head_of width queue.kind queue }
{
    let heads = words::unpack(queue.packed);
    match queue.kind {
        Kind::Lifo => heads.low,
        Kind::Fifo => heads.high,
    }
}

pub fn tail_of(queue: Queue) -> u32
    ensures { result ≡ tail_of width queue.kind queue }
{
    match queue.kind {
        Kind::Lifo => words::sub(queue.pushes, words::unpack(queue.packed).high),
        Kind::Fifo => queue.pushes,
    }
}

// What rests in queue q; nothing in a queue past the table.
pub fn resting_of<R: Record>(held: &R, q: u64) -> Resting
    ensures { result ≡ pick (ltb q most) (resting_of width (R.machine held.now) q) nothing_rests }
{
    if q >= MOST as u64 {
        return Resting::default();
    }
    let i = q as usize;
    let queue = held.queue(i);
    let head = head_of(queue);
    Resting {
        base: base_of(held, i),
        capacity: queue.capacity,
        head,
        count: words::sub(tail_of(queue), head),
    }
}

// The i-th resting token, head first. A record with no slot for it has 0 there, and not `None`: what may not change, since `tokens_of`
// says 0 and a host reads it.
pub fn token_at(items: &[u64], s: Resting, i: u32) -> u64
    ensures { result ≡ get_or (tokens_of width s items.now) i 0 }
{
    if s.count <= i {
        return 0;
    }
    if !words::is_capacity(s.capacity) {
        return 0;
    }
    let slot = words::slot_of(Position(words::add(s.head, i)), s.capacity);
    let at = slot.0 as usize;
    if items.len() < s.base || items.len() - s.base <= at {
        return 0;
    }
    items[s.base + at]
}
