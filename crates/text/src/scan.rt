// Where a byte first stands in a part of bytes.
ghost use Rattle.std.specs.Prelude.{◌≡◌, ◌+◌, ◌≤◌, length};
ghost use Rattle.text.specs.Bytes.{slice, index_of};

// The part's end, where it has no such byte: no `Option`, since a caller cuts there either way.
pub fn find(s: &[u8], from: usize, end: usize, byte: u8) -> usize
    requires ordered { from ≤ end }
    requires within { end ≤ length s.now }
    ensures index { result ≡ from + index_of byte (slice from end s.now) }
    ensures bound { result ≤ end }
{
    match s[from..end].iter().position(|&b| b == byte) {
        Some(before) => from + before,
        None => end,
    }
}
