// What a host in C or Rust links: each function of `host::export` under its name, with its clauses. docs/HOST.md has the table.
#![tactic(auto)]

ghost use Rattle.std.specs.Prelude.{◌≡◌, List, ℕ, length, get_or};
ghost use Rattle.words.specs.Edition.{width};
ghost use Rattle.tables.specs.Machine.{most};
ghost use Rattle.tables.specs.declared.call.Act.TheVariants as Act;
ghost use Rattle.block.specs.Block as B;
ghost use Rattle.block.specs.Contents.{contents_in, left};
ghost use Rattle.block.specs.Look as L;
ghost use Rattle.block.specs.Opening as O;
ghost use Rattle.host.specs.Fault.{code_of};
ghost use Rattle.host.specs.Numbers as N;

use host::export;
use host::fault::Fault;

// 0, the refusal's number, or 100 where numbers name nothing.
fn code(outcome: Result<(), Fault>) -> u8
    ensures { result ≡ code_of outcome }
{
    match outcome {
        Ok(()) => 0,
        Err(fault) => fault.into(),
    }
}

// How many 64-bit words a block has.
#[unsafe(no_mangle)]
pub extern "C" fn ragnulois_words() -> u64
    ensures { result ≡ B.size most }
{
    export::ragnulois_words()
}

// A fresh machine, or refusal 1, 7 or 8; kind 0 is LIFO, 1 FIFO. Opening writes no item.
#[unsafe(no_mangle)]
pub extern "C" fn ragnulois_open(
    block: &mut [u64],
    kind: u64,
    parties: u64,
    requests: &[u64],
    positions: &[u32],
    items: &[u64],
) -> u8
    ensures block_is { O.left_at result (contents_in width most block.new)
        ≡ O.opened width most block.old kind parties requests.now positions.now (length items.now) }
    ensures kept { O.IsUntouched most block.old kind → block.new ≡ block.old }
{
    code(export::ragnulois_open(block, kind, parties, requests, positions, items))
}

// Begin a call: malformed, or refusal 1, 2, 3 or 5.
#[unsafe(no_mangle)]
pub extern "C" fn ragnulois_begin(
    block: &mut [u64],
    items: &mut [u64],
    party: u64,
    call: u64,
    source: u64,
    rule: u64,
    number: u64,
) -> u8
    ensures outcome { record { held = contents_in width most block.new; items = items.new; refusal = result }
        ≡ N.begun width most (contents_in width most block.old) items.old party call source rule number }
    ensures kept { (result ≡ 0 → ⊥) → block.new ≡ block.old }
{
    code(export::ragnulois_begin(block, items, party, call, source, rule, number))
}

// One step: malformed, or refusal 1, 2, 4 or 6.
#[unsafe(no_mangle)]
pub extern "C" fn ragnulois_step(
    block: &mut [u64],
    items: &mut [u64],
    party: u64,
    mark: u64,
    number: u64,
) -> u8
    ensures outcome { record { held = contents_in width most block.new; items = items.new; refusal = result }
        ≡ N.stepped width most (contents_in width most block.old) items.old party mark number }
    ensures kept { (result ≡ 0 → ⊥) → block.new ≡ block.old }
{
    code(export::ragnulois_step(block, items, party, mark, number))
}

// Run alone, up to a budget of steps: refusal 1, 2 or 4.
#[unsafe(no_mangle)]
pub extern "C" fn ragnulois_run_alone(
    block: &mut [u64],
    items: &mut [u64],
    party: u64,
    budget: u64,
) -> u8
    ensures outcome { record { held = contents_in width most block.new; items = items.new; refusal = result }
        ≡ left width most (contents_in width most block.old) items.old party (Act.Alone budget) }
    ensures kept { (result ≡ 0 → ⊥) → block.new ≡ block.old }
{
    code(export::ragnulois_run_alone(block, items, party, budget))
}

// The machine's parties; 0 where the words are no block.
#[unsafe(no_mangle)]
pub extern "C" fn ragnulois_parties(block: &[u64]) -> u64
    ensures { result ≡ (B.machine_of width most block.now).parties }
{
    export::ragnulois_parties(block)
}

// A word of a queue: 0 capacity, 1 pushes (LIFO's push count, FIFO's tail), 2 the packed heads, 3 the completed head; else 0.
#[unsafe(no_mangle)]
pub extern "C" fn ragnulois_word(block: &[u64], queue: u64, which: u64) -> u64
    ensures { result ≡ L.word_in width most block.now queue which }
{
    export::ragnulois_word(block, queue, which)
}

// Word 0 to 16 of the last answer; else 0.
#[unsafe(no_mangle)]
pub extern "C" fn ragnulois_reply(block: &[u64], which: u64) -> u64
    ensures { result ≡ L.reply_in most block.now which }
{
    export::ragnulois_reply(block, which)
}

// How many tokens rest in a queue.
#[unsafe(no_mangle)]
pub extern "C" fn ragnulois_resting(block: &[u64], queue: u64) -> u64
    ensures { (xs : List ℕ) → result ≡ length (L.rest_in width most block.now xs queue) }
{
    export::ragnulois_resting(block, queue)
}

// The i-th of them, head first; 0 where there is none.
#[unsafe(no_mangle)]
pub extern "C" fn ragnulois_token(block: &[u64], items: &[u64], queue: u64, i: u64) -> u64
    ensures { result ≡ get_or (L.rest_in width most block.now items.now queue) i 0 }
{
    export::ragnulois_token(block, items, queue, i)
}
