// Words that turn over, two words in one, and the capacities of a ring of slots.
#![tactic(auto)]

ghost use Rattle.std.specs.Prelude.{◌≡◌, ◌-◌, ◌^◌, ◌≤◌, nat_lt, Some, None};
ghost use Rattle.words.specs.Word.{plus, minus, packed, Unpacked, slot_of, Pow, pow_below, capacity_of, least_of, pick};
ghost use Rattle.words.specs.Edition.{width};

// A position counts on and turns over; only `slot_of` makes a slot of it.
#[derive(Clone, Copy)]
pub struct Position(pub u32);

// An index below the capacity.
#[derive(Clone, Copy)]
pub struct Slot(pub u32);

// The two short words that a long one holds.
#[derive(Clone, Copy)]
pub struct Halves {
    pub high: u32,
    pub low: u32,
}

// Pack two short integers into a long one, so that both change in one exchange. pack and unpack are st3's own, under its names.
pub fn pack(high: u32, low: u32) -> u64
    ensures { result ≡ packed width high low }
{
    ((high as u64) << 32) | (low as u64)
}

// Unpack a long integer into 2 short ones.
pub fn unpack(word: u64) -> Halves
    ensures { Unpacked width word result.high result.low }
{
    Halves {
        high: (word >> 32) as u32,
        low: (word & 0xffff_ffff) as u32,
    }
}

// Counters and positions run past the largest word to 0.
pub fn add(a: u32, b: u32) -> u32
    ensures { result ≡ plus width a b }
{
    a.wrapping_add(b)
}

// The way from b on to a, also where a has turned over since.
pub fn sub(a: u32, b: u32) -> u32
    ensures { result ≡ minus width a b }
{
    a.wrapping_sub(b)
}

// The largest word.
pub fn largest() -> u32
    ensures { result ≡ 2 ^ width - 1 }
{
    u32::MAX
}

// A number as a word, if it is one: a position is.
pub fn word_of(n: u64) -> Option<u32>
    ensures { result ≡ pick (nat_lt n (2 ^ width)) (Some n) None }
{
    u32::try_from(n).ok()
}

// The largest capacity.
pub fn largest_capacity() -> u64
    ensures { result ≡ 2 ^ (width - 1) }
{
    0x8000_0000
}

// The one way from a position to a slot. A mask does for a remainder, since a capacity is a power of two.
pub fn slot_of(at: Position, capacity: u32) -> Slot
    requires { Pow capacity }
    ensures { result.0 ≡ slot_of capacity at.0 }
{
    Slot(at.0 & (capacity - 1))
}

// A power of two has one bit set, which c - 1 lacks; in constant time, since each step asks it.
pub fn is_capacity(c: u32) -> bool
    ensures { result ≡ pow_below width c }
{
    c != 0 && c & (c - 1) == 0
}

// The capacity for a request: the next power of two. What the leading zeros of the number before the request leave of its 64 digits
// is the exponent, so that 1 gets 2^0. No number is before 0, which gets 1 too.
pub fn capacity(request: u64) -> u32
    requires { request ≤ 2 ^ (width - 1) }
    ensures { result ≡ capacity_of width request }
{
    if request == 0 {
        return 1;
    }
    let exponent = 64 - u64::leading_zeros(request - 1);
    1 << exponent
}

// How many to take. The rule's number is compared at its full width: cut first, it could come out smaller.
pub fn least(rule: u64, limit: u32, n: u32) -> u32
    ensures { result ≡ least_of rule limit n }
{
    rule.min(limit.min(n) as u64) as u32
}
