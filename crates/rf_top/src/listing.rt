//! The lines that tell of a source and of its layout.

ghost use Rattle.std.specs.Prelude.{◌≡◌, ◌++◌, IfOk, OnOk};
ghost use Rattle.std.specs.Str.{chars};
ghost use Rattle.std.specs.String.{string_bytes};
ghost use Rattle.rf_base_document.specs.Directions.{letter};
ghost use Rattle.rf_base_grammar.specs.Itemised.{line_ends};
ghost use Rattle.rf_whole.specs.Whole.{layout_of};
ghost use Rattle.rf_top.specs.Answer.{choices_line, choices_lines, directions, summary_lines, within_line};

use rf_base_document::Dir;
use rf_whole::Formatted;
use std::alloc::{AllocError, Global};

/// Three lines: `cost` and the cost in decimal; `within yes` or `within no`; and `choices`, where there is a choice
/// with a space and the directions, `L` or `R` each. An `AllocError` comes for want of memory.
pub fn choices_lines(alloc: Global, made: &Formatted<u128>) -> Result<String, AllocError>
    ensures { IfOk result (λ lines. string_bytes lines ≡ choices_lines (layout_of made.now)) }
{
    let cost = made.cost;
    let mut lines = format!(in alloc; "cost {cost}\n")?;
    lines.push_str(within_line(made.within))?;
    push_choices_line(&mut lines, &made.choices)?;
    Ok(lines)
}

/// Five lines, each a word and what it tells: the source's `bytes` and `items`, the line breaks of the layout as
/// `lines`, its `cost`, and `within yes` or `within no`. An `AllocError` comes for want of memory.
pub fn summary_lines(
    alloc: Global,
    bytes: usize,
    items: usize,
    made: &Formatted<u128>,
) -> Result<String, AllocError>
    ensures { IfOk result (λ lines. string_bytes lines ≡ summary_lines bytes items (layout_of made.now)) }
{
    let line_ends = line_ends(&made.text);
    let cost = made.cost;
    let mut lines = format!(in alloc;
        "bytes {bytes}\nitems {items}\nlines {line_ends}\ncost {cost}\n"
    )?;
    lines.push_str(within_line(made.within))?;
    Ok(lines)
}

// How many line ends a text has.
fn line_ends(text: &str) -> usize
    ensures { result ≡ line_ends (chars text.now) }
{
    text.chars().filter(|c| *c == '\n').count()
}

// How it is said whether a layout is within the computation width.
fn within_line(within: bool) -> &'static str
    ensures { result.now ≡ within_line within }
{
    if within {
        "within yes\n"
    } else {
        "within no\n"
    }
}

// Writes the line that lists choices.
fn push_choices_line(lines: &mut String, choices: &[Dir]) -> Result<(), AllocError>
    ensures { OnOk result (string_bytes lines.new ≡ string_bytes lines.old ++ choices_line choices.now) }
{
    if choices.is_empty() {
        return lines.push_str("choices\n");
    }
    lines.push_str("choices ")?;
    push_directions(lines, choices)?;
    lines.push_str("\n")
}

// Writes the directions one after another.
fn push_directions(line: &mut String, choices: &[Dir]) -> Result<(), AllocError>
    ensures { OnOk result (string_bytes line.new ≡ string_bytes line.old ++ directions choices.now) }
{
    for dir in choices {
        line.push_str(letter(*dir))?;
    }
    Ok(())
}

// How a direction is written.
fn letter(dir: Dir) -> &'static str
    ensures { result.now ≡ letter dir }
{
    match dir {
        Dir::Left => "L",
        Dir::Right => "R",
    }
}
