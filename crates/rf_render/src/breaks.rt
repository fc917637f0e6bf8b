//! Line breaks.

ghost use Rattle.std.specs.Prelude.{◌≡◌, ◌∷◌, ◌++◌, replicate, OnOk};
ghost use Rattle.std.specs.Str.{chars};
ghost use Rattle.std.specs.String.{string_bytes};

use std::alloc::AllocError;

/// Writes one line feed and this many spaces, the characters of a break to that indentation. An
/// `AllocError` comes for want of memory, and part of them may be written then.
pub fn push_break(text: &mut String, indentation: u32) -> Result<(), AllocError>
    ensures { OnOk result (chars (string_bytes text.new)
        ≡ chars (string_bytes text.old) ++ 10 ∷ replicate indentation 32) }
{
    text.push('\n')?;
    push_spaces(text, indentation as usize)
}

// Writes this many spaces, 64 at once.
fn push_spaces(text: &mut String, count: usize) -> Result<(), AllocError>
    ensures { OnOk result (string_bytes text.new ≡ string_bytes text.old ++ replicate count 32) }
{
    let block = block_of_spaces();
    let mut left = count;
    while left > block.len() {
        text.push_str(block)?;
        left -= block.len();
    }
    text.push_str(&block[..left])
}

// 64 spaces.
fn block_of_spaces() -> &'static str
    ensures { result.now ≡ replicate 64 32 }
{
    "                                                                "
}
