//! From bytes to text.

ghost use Rattle.std.specs.Prelude.{◌≡◌, ◌≤◌, ◌↔◌, length, IsOk, IfOk, IfErr};
ghost use Rattle.std.specs.Str.{IsUtf8, IsValidUpTo};

use rf_base_grammar::SOURCE_LIMIT;
use thiserror::Error;

/// Why bytes are no text: they aren't UTF-8.
#[derive(Clone, Copy, Debug, PartialEq, Eq, Error)]
#[error("not UTF-8 from byte {offset} on")]
pub struct NotUtf8 {
    /// The length in bytes of the longest prefix that is UTF-8, which is the offset of the first byte behind it.
    pub offset: u32,
}

/// The text that the bytes spell in UTF-8. There are at most 4,194,304 bytes.
///
/// It is the same bytes, and takes no memory. Bytes that aren't UTF-8 are refused as `NotUtf8`, and no others are:
/// a `(` with the byte 255 behind it at offset 1.
pub fn as_text(bytes: &[u8]) -> Result<&str, NotUtf8>
    requires { length bytes.now ≤ SOURCE_LIMIT }
    // The text's bytes are these.
    ensures text { IfOk result (λ text. text.now ≡ bytes.now) }
    // Bytes are accepted exactly where they are UTF-8.
    ensures accepted { IsOk result ↔ IsUtf8 bytes.now }
    // The prefix of `offset` bytes is UTF-8, no longer one is, and bytes follow it.
    ensures offset { IfErr result (λ fault. IsValidUpTo bytes.now fault.offset) }
{
    match str::from_utf8(bytes) {
        Ok(text) => Ok(text),
        Err(fault) => Err(NotUtf8 {
            offset: fault.valid_up_to() as u32,
        }),
    }
}
