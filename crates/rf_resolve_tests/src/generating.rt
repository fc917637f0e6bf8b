//! Documents that are put together by a fixed pseudo-random sequence.

use rf_documents::Dice;
use std::alloc::{AllocError, Global};

/// A document of about so many words in postfix form.
pub fn words(alloc: Global, dice: &mut Dice, length: u32) -> Result<String, AllocError> {
    let mut text = String::new(alloc);
    let mut depth = 0u32;
    for _word in 0..length {
        let word = word(dice, depth);
        depth = match word {
            "+" | "|" => depth.saturating_sub(1),
            "nest" | "far" | "align" | "reset" | "flat" | "charge" | "free" => depth,
            _ => depth.saturating_add(1),
        };
        text.push_str(word)?;
        text.push(' ')?;
    }
    for _more in 1..depth {
        text.push_str(if dice.roll(2) == 0 { "+ " } else { "| " })?;
    }
    Ok(text)
}

// A word that so many documents on the stack allow.
fn word(dice: &mut Dice, depth: u32) -> &'static str {
    let kind = dice.roll(6);
    if kind < 2 && depth >= 2 {
        return if dice.roll(2) == 0 { "+" } else { "|" };
    }
    if kind == 2 && depth >= 1 {
        return above(dice);
    }
    match dice.roll(9) {
        0 | 1 => "a",
        2 => "bbb",
        3 => "cccccc",
        4 => "empty",
        5 | 6 => "line",
        7 => "hard",
        _ => "wide",
    }
}

// A word that takes one document.
fn above(dice: &mut Dice) -> &'static str {
    match dice.roll(9) {
        0 | 1 => "nest",
        2 => "far",
        3 | 4 => "align",
        5 => "reset",
        6 => "flat",
        7 => "charge",
        _ => "free",
    }
}
