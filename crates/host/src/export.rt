// What a host in C or Rust calls: numbers, slices, and the machine as a block of words that the host owns. The crate `host_c` exports
// each of these under its name. docs/HOST.md has the table.
ghost use Rattle.std.specs.Prelude.{◌≡◌, List, ℕ, IsErr, length, get_or};
ghost use Rattle.words.specs.Edition.{width};
ghost use Rattle.tables.specs.Machine.{most};
ghost use Rattle.tables.specs.declared.call.Act.TheVariants as Act;
ghost use Rattle.block.specs.Block as B;
ghost use Rattle.block.specs.Contents.{contents_in, left};
ghost use Rattle.block.specs.Look as L;
ghost use Rattle.block.specs.Opening as O;
ghost use Rattle.host.specs.Fault.{code_of};
ghost use Rattle.host.specs.Numbers as N;

use super::fault::Fault;
use super::numbers;
use block::layout::SIZE;
use tables::call::Act;

// How many 64-bit words a block has.
pub fn ragnulois_words() -> u64
    ensures { result ≡ B.size most }
{
    SIZE as u64
}

// A fresh machine, or refusal 1, 7 or 8; kind 0 is LIFO, 1 FIFO. Opening writes no item.
pub fn ragnulois_open(
    block: &mut [u64],
    kind: u64,
    parties: u64,
    requests: &[u64],
    positions: &[u32],
    items: &[u64],
) -> Result<(), Fault>
    ensures block_is { O.left_at (code_of result) (contents_in width most block.new)
        ≡ O.opened width most block.old kind parties requests.now positions.now (length items.now) }
    ensures kept { O.IsUntouched most block.old kind → block.new ≡ block.old }
{
    Ok(block::open::open(block, kind, parties, requests, positions, items)?)
}

// Begin a call: malformed, or refusal 1, 2, 3 or 5.
#[tactic(auto, unfolding(crate::specs::Numbers::begun))]
pub fn ragnulois_begin(
    block: &mut [u64],
    items: &mut [u64],
    party: u64,
    call: u64,
    source: u64,
    rule: u64,
    number: u64,
) -> Result<(), Fault>
    ensures outcome { record { held = contents_in width most block.new; items = items.new; refusal = code_of result }
        ≡ N.begun width most (contents_in width most block.old) items.old party call source rule number }
    ensures kept { IsErr result → block.new ≡ block.old }
{
    let call = numbers::known_call(call, source, rule, number).ok_or(Fault::Malformed)?;
    Ok(block::entry::act(block, items, party, Act::Begin(call))?)
}

// One step: malformed, or refusal 1, 2, 4 or 6.
#[tactic(auto, unfolding(crate::specs::Numbers::stepped))]
pub fn ragnulois_step(
    block: &mut [u64],
    items: &mut [u64],
    party: u64,
    mark: u64,
    number: u64,
) -> Result<(), Fault>
    ensures outcome { record { held = contents_in width most block.new; items = items.new; refusal = code_of result }
        ≡ N.stepped width most (contents_in width most block.old) items.old party mark number }
    ensures kept { IsErr result → block.new ≡ block.old }
{
    let mark = numbers::known_mark(mark, number).ok_or(Fault::Malformed)?;
    Ok(block::entry::act(block, items, party, Act::Step(mark))?)
}

// Run alone, up to a budget of steps: refusal 1, 2 or 4.
pub fn ragnulois_run_alone(
    block: &mut [u64],
    items: &mut [u64],
    party: u64,
    budget: u64,
) -> Result<(), Fault>
    ensures outcome { record { held = contents_in width most block.new; items = items.new; refusal = code_of result }
        ≡ left width most (contents_in width most block.old) items.old party (Act.Alone budget) }
    ensures kept { IsErr result → block.new ≡ block.old }
{
    Ok(block::entry::act(block, items, party, Act::Alone(budget))?)
}

// The machine's parties; 0 where the words are no block.
pub fn ragnulois_parties(block: &[u64]) -> u64
    ensures { result ≡ (B.machine_of width most block.now).parties }
{
    block::look::parties(block)
}

// A word of a queue: 0 capacity, 1 pushes (LIFO's push count, FIFO's tail), 2 the packed heads, 3 the completed head; else 0.
pub fn ragnulois_word(block: &[u64], queue: u64, which: u64) -> u64
    ensures { result ≡ L.word_in width most block.now queue which }
{
    block::look::word(block, queue, which)
}

// Word 0 to 16 of the last answer; else 0.
pub fn ragnulois_reply(block: &[u64], which: u64) -> u64
    ensures { result ≡ L.reply_in most block.now which }
{
    block::look::reply(block, which)
}

// How many tokens rest in a queue.
pub fn ragnulois_resting(block: &[u64], queue: u64) -> u64
    ensures { (xs : List ℕ) → result ≡ length (L.rest_in width most block.now xs queue) }
{
    block::look::resting(block, queue)
}

// The i-th of them, head first; 0 where there is none.
pub fn ragnulois_token(block: &[u64], items: &[u64], queue: u64, i: u64) -> u64
    ensures { result ≡ get_or (L.rest_in width most block.now items.now queue) i 0 }
{
    block::look::token(block, items, queue, i)
}
