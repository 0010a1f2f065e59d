// Where the words of a machine stand in a lent slice: read and written in place, one party or queue at a time.
ghost use Rattle.std.specs.Prelude.{◌≡◌, ◌+◌, ◌≤◌, ◌<◌, ◌↔◌, true, false, length, get_or, IsNone, IfSome};
ghost use Rattle.words.specs.Edition.{width};
ghost use Rattle.tables.specs.Machine.{most, restretched};
ghost use Rattle.block.specs.Block as B;
ghost use Rattle.block.specs.PlaceWords as C;
ghost use Rattle.block.specs.Reply as Y;

use super::reply::{REPLY_SIZE, reply_words};
use super::{CallWords, PlaceWords, read};
use machine::record::Record;
use tables::answer::Reply;
use tables::state::{Drain, Kind, MOST, Party, Queue};

// "ragnuloi" in ASCII: the first word of every block.
pub const SEAL: u64 = 8241982517178822505;

// The second word: the number of this layout.
pub const LAYOUT: u64 = 2;

pub const REPLY_BASE: usize = 3;

pub const PARTY_SIZE: usize = 11;

pub const QUEUE_SIZE: usize = 3;

pub const PARTIES_BASE: usize = REPLY_BASE + REPLY_SIZE;

pub const QUEUES_BASE: usize = PARTIES_BASE + PARTY_SIZE * MOST;

// The words of a block.
pub const SIZE: usize = QUEUES_BASE + QUEUE_SIZE * MOST;

// Long enough, sealed, of this layout, and for parties that there is room for.
#[tactic(auto, unfolding(crate::specs::Block::is_block))]
pub fn is_block(block: &[u64]) -> bool
    ensures { result ≡ B.is_block most block.now }
{
    SIZE <= block.len() && block[0] == SEAL && block[1] == LAYOUT && block[2] <= (MOST as u64)
}

// ---- a party and a queue as words

// Between types of other crates, for which no `From` can stand here.
pub fn kind_of(number: u64) -> Kind
    ensures { result ≡ B.kind_of number }
{
    if number == 0 { Kind::Lifo } else { Kind::Fifo }
}

#[tactic(auto, unfolding(crate::specs::Block::party_from))]
fn party_from(words: [u64; PARTY_SIZE]) -> Party
    ensures { result ≡ B.party_from width words }
{
    let [
        role,
        row,
        tag,
        rule,
        source,
        number,
        packed,
        first,
        third,
        fifth,
        drain,
    ] = words;
    let one = words::unpack(first);
    let two = words::unpack(third);
    let drain = words::unpack(drain);
    let place = read::place(PlaceWords {
        role,
        row,
        call: CallWords {
            tag,
            rule,
            source,
            number,
        },
        packed,
        first: one.high,
        second: one.low,
        third: two.high,
        fourth: two.low,
        fifth: words::unpack(fifth).low,
    });
    Party {
        place,
        drain: Drain {
            at: drain.high,
            end: drain.low,
        },
    }
}

#[tactic(auto, unfolding(crate::specs::Block::queue_from))]
fn queue_from(words: [u64; QUEUE_SIZE]) -> Queue
    ensures { result ≡ B.queue_from width words }
{
    let [first, packed, last] = words;
    let first = words::unpack(first);
    let last = words::unpack(last);
    Queue {
        kind: kind_of(last.high as u64),
        capacity: first.high,
        pushes: first.low,
        packed,
        completed: last.low,
    }
}

pub fn party_words(cell: PlaceWords, drain: Drain) -> [u64; PARTY_SIZE]
    ensures words_are { result ≡ B.party_words width cell drain }
    ensures place_back { B.words_from width result ≡ cell }
    ensures drain_back { B.drain_from width result ≡ drain }
{
    let call = cell.call;
    [
        cell.role,
        cell.row,
        call.tag,
        call.rule,
        call.source,
        call.number,
        cell.packed,
        words::pack(cell.first, cell.second),
        words::pack(cell.third, cell.fourth),
        cell.fifth as u64,
        words::pack(drain.at, drain.end),
    ]
}

#[tactic(auto, unfolding(crate::specs::Block::queue_from))]
pub fn queue_words(queue: Queue) -> [u64; QUEUE_SIZE]
    ensures words_are { result ≡ B.queue_words width queue }
    ensures reads_back { B.queue_from width result ≡ queue }
{
    [
        words::pack(queue.capacity, queue.pushes),
        queue.packed,
        words::pack(queue.kind as u32, queue.completed),
    ]
}

// ---- where they stand

// Not one function for both: the length of the array would be a constant of a trait. That i is below the limit is asked as in `Record`.
pub fn party_at(block: &[u64], i: usize) -> Party
    requires within { i < most }
    requires long { B.size most ≤ length block.now }
    ensures { result ≡ B.party_in width block.now i }
{
    let at = PARTIES_BASE + PARTY_SIZE * i;
    party_from(block[at..at + PARTY_SIZE].try_into().unwrap())
}

pub fn queue_at(block: &[u64], i: usize) -> Queue
    requires within { i < most }
    requires long { B.size most ≤ length block.now }
    ensures { result ≡ B.queue_in width most block.now i }
{
    let at = QUEUES_BASE + QUEUE_SIZE * i;
    queue_from(block[at..at + QUEUE_SIZE].try_into().unwrap())
}

// Words that are a block.
#[derive(Clone, Copy)]
pub struct Words<'a> {
    pub words: &'a [u64],
    ghost sealed: { B.is_block most words.now ≡ true },
    ghost long: { B.size most ≤ length words.now },
    ghost few: { get_or words.now 2 0 ≤ most },
}

impl<'a> Words<'a> {
    // None where the words are no block.
    #[tactic(auto, unfolding(crate::specs::Block::is_block))]
    pub fn of_block(block: &'a [u64]) -> Option<Words<'a>>
        ensures none { IsNone result ↔ (B.is_block most block.now ≡ false) }
        ensures same { IfSome result (λ w. w.words.now ≡ block.now) }
    {
        if is_block(block) {
            Some(Words { words: block })
        } else {
            None
        }
    }
}

impl Record for Words<'_> {
    ghost machine = { λ w. B.machine_of width most w.words.now };

    #[tactic(auto, using(crate::proofs::Looks::parties_yes))]
    fn parties(&self) -> u32 {
        self.words[2] as u32
    }

    #[tactic(auto, using(crate::proofs::Looks::party_here, crate::proofs::Looks::parties_many))]
    fn party(&self, i: usize) -> Party {
        party_at(self.words, i)
    }

    #[tactic(auto, using(crate::proofs::Looks::queue_here, crate::proofs::Looks::queues_many))]
    fn queue(&self, i: usize) -> Queue {
        queue_at(self.words, i)
    }
}

// Words long enough for a block, to be written.
#[derive(Drop)]
pub struct WordsMut<'a> {
    pub words: &'a mut [u64],
    ghost long: { B.size most ≤ length words.now },
}

impl WordsMut<'_> {
    // Words put one after the other. That the words are the same ones is of two moments, and no ghost field: each function says it.
    pub fn put(&mut self, at: usize, part: &[u64])
        requires { at + length part.now ≤ length self.old.words.now }
        ensures same { self.new.words.ghost_name ≡ self.old.words.ghost_name }
        ensures words_are { self.new.words.now ≡ restretched at (length part.now) part.now self.old.words.now }
    {
        self.words[at..at + part.len()].copy_from_slice(part);
    }

    pub fn put_party(&mut self, i: usize, party: Party)
        requires { i < most }
        ensures same { self.new.words.ghost_name ≡ self.old.words.ghost_name }
        ensures words_are { self.new.words.now
            ≡ restretched (B.party_base i) B.party_size (B.party_words width (C.words_of party.place) party.drain) self.old.words.now }
        ensures reads_back { B.party_from width (B.party_words width (C.words_of party.place) party.drain) ≡ party }
    {
        let words = party_words(PlaceWords::from(party.place), party.drain);
        self.put(PARTIES_BASE + PARTY_SIZE * i, &words);
    }

    pub fn put_queue(&mut self, i: usize, queue: Queue)
        requires { i < most }
        ensures same { self.new.words.ghost_name ≡ self.old.words.ghost_name }
        ensures words_are { self.new.words.now
            ≡ restretched (B.queue_base most i) B.queue_size (B.queue_words width queue) self.old.words.now }
        ensures reads_back { B.queue_from width (B.queue_words width queue) ≡ queue }
    {
        self.put(QUEUES_BASE + QUEUE_SIZE * i, &queue_words(queue));
    }

    pub fn put_reply(&mut self, reply: Reply)
        ensures same { self.new.words.ghost_name ≡ self.old.words.ghost_name }
        ensures words_are { self.new.words.now ≡ restretched B.reply_base B.reply_size (Y.reply_words reply) self.old.words.now }
    {
        self.put(REPLY_BASE, &reply_words(reply));
    }
}
