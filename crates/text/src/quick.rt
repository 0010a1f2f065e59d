// The commonest lines, read where they stand in a block, in one pass. Each reader answers what it read and where it stopped; `None` says
// nothing, and the line is read field by field. Readers are handed the block and a place in it: where they stop is a place too, and the
// rest of the block in its stead would be no plainer.
ghost use Rattle.std.specs.Prelude.{◌+◌, ◌≤◌, length};
ghost use Rattle.words.specs.Edition.{width};
ghost use Rattle.text.specs.Ascii.{ascii};
ghost use Rattle.text.specs.Find.{Quick};
ghost use Rattle.text.specs.Quick as Q;

use super::{Aim, Found, Line};
use tables::call::{Call, Mark, Rule};

// Bytes that stand together as one number, the first lowest: one comparison for all of them, where a byte string costs one each.
const STEP: u64 = 0x70_65_74_73;

const BEGI: u64 = 0x69_67_65_62;

const N_TAB: u64 = 0x09_6e;

const PUSH: u64 = 0x68_73_75_70;

const POP: u64 = 0x0a_70_6f_70;

const EXTE: u64 = 0x65_74_78_65;

const ND: u64 = 0x64_6e;

const DRAI: u64 = 0x69_61_72_64;

const NEXT: u64 = 0x74_78_65_6e;

const DROP: u64 = 0x70_6f_72_64;

const STEA: u64 = 0x61_65_74_73;

const L_TAB: u64 = 0x09_6c;

const TAKE: u64 = 0x65_6b_61_74;

const SPAR: u64 = 0x72_61_70_73;

const E_END: u64 = 0x0a_65;

const EMPT: u64 = 0x74_70_6d_65;

const Y_END: u64 = 0x0a_79;

const ALL: u64 = 0x0a_6c_6c_61;

const HALF: u64 = 0x66_6c_61_68;

const FIXE: u64 = 0x65_78_69_66;

const D_TAB: u64 = 0x09_64;

const GIVE: u64 = 0x65_76_69_67;

const N_END: u64 = 0x0a_6e;

const WEAK: u64 = 0x6b_61_65_77;

const END: u64 = 0x0a_64_6e_65;

// ---- bytes

fn two(s: &[u8], at: usize) -> u64
    requires { at + 2 ≤ length s.now }
    ensures { Q.Loaded 2 s.now at result }
{
    s[at] as u64 + s[at + 1] as u64 * 256
}

fn four(s: &[u8], at: usize) -> u64
    requires { at + 4 ≤ length s.now }
    ensures { Q.Loaded 4 s.now at result }
{
    two(s, at) + two(s, at + 2) * 65536
}

// ---- numbers

// One digit or two.
fn few(s: &[u8], at: usize) -> Option<(u64, usize)>
    requires { at + 3 ≤ length s.now }
    ensures { Q.Few s.now at result }
{
    let d = s[at].wrapping_sub(b'0') as u64;
    if 9 < d {
        return None;
    }
    let e = s[at + 1].wrapping_sub(b'0') as u64;
    if 9 < e {
        return Some((d, at + 1));
    }
    Some((d * 10 + e, at + 2))
}

// As many as forty, and the newline.
fn last(s: &[u8], at: usize) -> Option<(u64, usize)>
    requires { at ≤ length s.now }
    ensures { Q.Last s.now at result }
{
    let mut value: u64 = 0;
    for i in at..s.len() {
        let d = s[i].wrapping_sub(b'0') as u64;
        if 9 < d {
            if s[i] == b'\n' && at < i && i - at <= 40 {
                return Some((value, i + 1));
            }
            return None;
        }
        value = value.checked_mul(10)?.checked_add(d)?;
    }
    None
}

// ---- rules

fn rule(s: &[u8], at: usize) -> Option<(Rule, usize)>
    requires { at + 8 ≤ length s.now }
    ensures { Q.RuleAt s.now at result }
{
    match four(s, at) {
        HALF if s[at + 4] == b'\n' => Some((Rule::Half, at + 5)),
        ALL => Some((Rule::All, at + 4)),
        GIVE if two(s, at + 4) == N_END => Some((Rule::Given, at + 6)),
        FIXE if two(s, at + 4) == D_TAB => {
            let (k, next) = last(s, at + 6)?;
            Some((Rule::Fixed(k), next))
        }
        _ => None,
    }
}

fn aim(s: &[u8], at: usize) -> Option<(Aim, usize)>
    requires { at + 11 ≤ length s.now }
    ensures { Q.AimAt s.now at result }
{
    let (source, end) = few(s, at)?;
    if s[end] != b'\t' {
        return None;
    }
    let (rule, next) = rule(s, end + 1)?;
    Some((Aim { source, rule }, next))
}

// ---- calls

fn call(s: &[u8], at: usize) -> Option<(Call, usize)>
    requires { at + 17 ≤ length s.now }
    ensures { Q.CallAt s.now at result }
{
    match four(s, at) {
        PUSH if s[at + 4] == b'\t' => {
            let (token, next) = last(s, at + 5)?;
            Some((Call::Push(token), next))
        }
        POP => Some((Call::Pop, at + 4)),
        STEA if two(s, at + 4) == L_TAB => {
            let (Aim { source, rule }, next) = aim(s, at + 6)?;
            Some((Call::Steal { source, rule }, next))
        }
        NEXT if s[at + 4] == b'\n' => Some((Call::Next, at + 5)),
        TAKE if s[at + 4] == b'\t' => {
            let (Aim { source, rule }, next) = aim(s, at + 5)?;
            Some((Call::Take { source, rule }, next))
        }
        EXTE if two(s, at + 4) == ND && s[at + 6] == b'\n' => Some((Call::Extend, at + 7)),
        DRAI if two(s, at + 4) == N_TAB => {
            let (rule, next) = rule(s, at + 6)?;
            Some((Call::Drain(rule), next))
        }
        DROP if s[at + 4] == b'\n' => Some((Call::Drop, at + 5)),
        EMPT if two(s, at + 4) == Y_END => Some((Call::Empty, at + 6)),
        SPAR if two(s, at + 4) == E_END => Some((Call::Spare, at + 6)),
        _ => None,
    }
}

// ---- marks

fn mark(s: &[u8], at: usize) -> Option<(Mark, usize)>
    requires { at + 8 ≤ length s.now }
    ensures { Q.MarkAt s.now at result }
{
    match four(s, at) {
        END => Some((Mark::End, at + 4)),
        WEAK if s[at + 4] == b'\n' => Some((Mark::Weak, at + 5)),
        GIVE if two(s, at + 4) == N_TAB => {
            let (given, next) = last(s, at + 6)?;
            Some((Mark::Carry(given), next))
        }
        _ => None,
    }
}

// ---- lines

fn step(s: &[u8], from: usize) -> Option<Found>
    requires within { from + 32 ≤ length s.now }
    requires stands { Q.Stands s.now from (ascii "step") }
    ensures { Quick width s.now from result }
{
    if s[from + 4] != b'\t' {
        return None;
    }
    let (party, end) = few(s, from + 5)?;
    match s[end] {
        b'\n' => Some(Found {
            line: Line::Step(party, Mark::Plain),
            next: end + 1,
        }),
        b'\t' => {
            let (mark, next) = mark(s, end + 1)?;
            Some(Found {
                line: Line::Step(party, mark),
                next,
            })
        }
        _ => None,
    }
}

fn begin(s: &[u8], from: usize) -> Option<Found>
    requires within { from + 32 ≤ length s.now }
    requires stands { Q.Stands s.now from (ascii "begi") }
    ensures { Quick width s.now from result }
{
    if two(s, from + 4) != N_TAB {
        return None;
    }
    let (party, end) = few(s, from + 6)?;
    if s[end] != b'\t' {
        return None;
    }
    let (call, next) = call(s, end + 1)?;
    Some(Found {
        line: Line::Begin(party, call),
        next,
    })
}

// The `step` and `begin` lines that are neither near the block's end nor of parties over 99.
pub fn quick(s: &[u8], from: usize) -> Option<Found>
    requires { from ≤ length s.now }
    ensures { Quick width s.now from result }
{
    if s.len() - from < 32 {
        return None;
    }
    match four(s, from) {
        STEP => step(s, from),
        BEGI => begin(s, from),
        _ => None,
    }
}
