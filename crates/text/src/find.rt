// The next line of a block of input, found and read.
ghost use Rattle.std.specs.Prelude.{◌≡◌, ◌≤◌, length};
ghost use Rattle.words.specs.Edition.{width};
ghost use Rattle.text.specs.Find.{next_line};

use super::{Found, quick, read, scan};

// The block and a place in it, as in quick.rt.
pub fn next_line(s: &[u8], from: usize) -> Option<Found>
    requires { from ≤ length s.now }
    ensures { result ≡ next_line width s.now from }
{
    if let Some(found) = quick::quick(s, from) {
        return Some(found);
    }
    let end = scan::find(s, from, s.len(), b'\n');
    if end == s.len() {
        return None;
    }
    Some(Found {
        line: read::read_line(&s[from..end]),
        next: end + 1,
    })
}
