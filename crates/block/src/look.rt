// What a host reads off a block in place: any words are taken, and what is not there reads as 0.
ghost use Rattle.std.specs.Prelude.{◌≡◌, List, ℕ, ltb, length, get_or};
ghost use Rattle.words.specs.Edition.{width};
ghost use Rattle.tables.specs.Machine.{most, queue_at};
ghost use Rattle.machine.specs.Rest.{resting_of};
ghost use Rattle.block.specs.Block as B;
ghost use Rattle.block.specs.Look as L;
ghost use Rattle.block.specs.PlaceWords.{where_known};

use super::layout::{REPLY_BASE, Words};
use super::reply::REPLY_SIZE;
use machine::record::Record;
use machine::rest;
use machine::rest::Resting;
use tables::state::Queue;

// 0 for words that are no block, so that a queue below this number is a queue of a block.
#[tactic(auto, unfolding(crate::specs::Block::machine_of))]
pub fn parties(block: &[u64]) -> u64
    ensures { result ≡ (B.machine_of width most block.now).parties }
{
    Words::of_block(block).map_or(0, |words| words.parties() as u64)
}

#[tactic(auto, using(crate::proofs::Looks::known))]
fn queue_of(block: &[u64], queue: u64) -> Option<Queue>
    ensures { result ≡ where_known (ltb queue (B.machine_of width most block.now).parties)
        (queue_at (B.machine_of width most block.now) queue) }
{
    let words = Words::of_block(block)?;
    if queue < words.parties() as u64 {
        Some(words.queue(queue as usize))
    } else {
        None
    }
}

fn word_of(queue: Queue, which: u64) -> u64
    ensures { result ≡ get_or (L.queue_words_of queue) which 0 }
{
    match which {
        0 => queue.capacity as u64,
        1 => queue.pushes as u64,
        2 => queue.packed,
        3 => queue.completed as u64,
        _ => 0,
    }
}

// 0 capacity, 1 pushes (LIFO's push count, FIFO's tail), 2 the packed heads, 3 the completed head.
#[tactic(auto, unfolding(crate::specs::Look::word_in))]
pub fn word(block: &[u64], queue: u64, which: u64) -> u64
    ensures { result ≡ L.word_in width most block.now queue which }
{
    queue_of(block, queue).map_or(0, |queue| word_of(queue, which))
}

// A word of the last answer.
#[tactic(auto, using(crate::proofs::Looks::reply_here), unfolding(crate::specs::Look::reply_in))]
pub fn reply(block: &[u64], which: u64) -> u64
    ensures { result ≡ L.reply_in most block.now which }
{
    match Words::of_block(block) {
        Some(words) if which < (REPLY_SIZE as u64) => words.words[REPLY_BASE + which as usize],
        _ => 0,
    }
}

// As `queue_of`, of what rests there: one function over what is read would need a clause longer than both.
#[tactic(auto, using(crate::proofs::Looks::known))]
fn resting_in(block: &[u64], queue: u64) -> Option<Resting>
    ensures { result ≡ where_known (ltb queue (B.machine_of width most block.now).parties)
        (resting_of width (B.machine_of width most block.now) queue) }
{
    let words = Words::of_block(block)?;
    if queue < words.parties() as u64 {
        Some(rest::resting_of(&words, queue))
    } else {
        None
    }
}

// How many tokens rest in a queue: whatever the items are, since the words alone say it.
#[tactic(auto, using(crate::proofs::Looks::many_here))]
pub fn resting(block: &[u64], queue: u64) -> u64
    ensures { (xs : List ℕ) → result ≡ length (L.rest_in width most block.now xs queue) }
{
    resting_in(block, queue).map_or(0, |s| s.count as u64)
}

// The i-th resting token, head first.
#[tactic(auto, using(crate::proofs::Looks::token_here, crate::proofs::Looks::token_past))]
pub fn token(block: &[u64], items: &[u64], queue: u64, i: u64) -> u64
    ensures { result ≡ get_or (L.rest_in width most block.now items.now queue) i 0 }
{
    match resting_in(block, queue) {
        Some(s) if i < s.count as u64 => rest::token_at(items, s, i as u32),
        _ => 0,
    }
}
