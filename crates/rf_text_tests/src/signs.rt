// What the signs of the tables stand for.
use std::alloc::{AllocError, Global};

/// The text that the signs stand for.
pub fn text_of(alloc: Global, shown: &str) -> Result<String, AllocError> {
    let mut text = String::new(alloc);
    for c in shown.chars() {
        text.push(meant(c))?;
    }
    Ok(text)
}

// The character that the sign stands for.
fn meant(c: char) -> char {
    match c {
        '⏎' => '\n',
        '⇥' => '\t',
        '␀' => '\0',
        _ => c,
    }
}
