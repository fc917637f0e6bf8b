//! The characters of a text.

ghost use Rattle.std.specs.Prelude.{◌≡◌, ◌<◌, ◌≤◌, IsTrue, length};
ghost use Rattle.std.specs.Str.{IsAscii, chars};

/// How many characters (Unicode scalar values) the text has, at most as many as bytes. This takes no memory.
pub fn char_count(s: &str) -> usize
    ensures count { result ≡ length (chars s.now) }
    ensures few { result ≤ length s.now }
{
    if is_ascii(s) {
        return s.len();
    }
    s.chars().count()
}

// Whether each character of the text is an ASCII character.
#[inline(always)]
fn is_ascii(s: &str) -> bool
    ensures { IsTrue result → IsAscii s.now }
{
    greatest(s.as_bytes()) < 128
}

// The greatest of the bytes, or 0. Each of them is looked at, so that many are at once.
#[inline(always)]
fn greatest(bytes: &[u8]) -> u8
    ensures { result < 128 → IsAscii bytes.now }
{
    let mut most: u8 = 0;
    let mut at = 0;
    while at < bytes.len() {
        most = most.max(bytes[at]);
        at += 1;
    }
    most
}
