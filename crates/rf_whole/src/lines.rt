//! Forms in a row, with the line ends behind each.

ghost use Rattle.std.specs.Prelude.{ℕ, ◌≡◌, ◌+◌, ◌<◌, ◌≤◌, ◌&&◌, [], ◌∷◌, ◌++◌, List, IfOk, OnOk, IsErrOf};
ghost use Rattle.std.specs.String.{string_bytes};
ghost use Rattle.rf_base_document.specs.Document.{Doc, IsDocument};
ghost use Rattle.rf_base_optimum.specs.Paragraphs.{Paragraph};
ghost use Rattle.rf_whole.specs.Laid.{IsFormOf, AreLinesOf};
ghost use Rattle.rf_whole.specs.Lines.{ArePastLimit};

use crate::ends::{ends_cost, push_ends};
use crate::faults::FormatError;
use crate::forms::Form;
use rf_base_document::LAYOUT_LIMIT;
use rf_cost::Factory;
use rf_doc::char_count;
use rf_flat::Dir;
use std::alloc::{AllocError, Global};
use std::mem;

/// The layouts of forms in a row with the line ends behind each, and what is told of them.
#[derive(Debug, Drop)]
pub struct Lines<C> {
    /// The choices, form by form.
    pub choices: Vec<Dir>,
    /// The layouts.
    pub text: String,
    /// What they cost.
    pub cost: C,
    /// Whether some layout of each form is within the computation width.
    pub within: bool,
    /// How many characters the text has.
    pub characters: u32,
    /// How many texts, line breaks and choices the resolutions have.
    pub weight: u32,
}

/// No lines.
pub fn no_lines<F: Factory>(alloc: Global, factory: &F) -> Lines<F::Cost>
    ensures { (w : ℕ) → AreLinesOf (F.costs factory.now) w [] result }
{
    Lines {
        choices: Vec::new(alloc),
        text: String::new(alloc),
        cost: factory.text(0, 0),
        within: true,
        characters: 0,
        weight: 0,
    }
}

/// No lines, in a text with room for so many bytes. An `AllocError` comes for want of memory.
pub fn no_lines_yet<F: Factory>(
    alloc: Global,
    factory: &F,
    room: usize,
) -> Result<Lines<F::Cost>, AllocError>
    ensures { IfOk result (λ lines. (w : ℕ) → AreLinesOf (F.costs factory.now) w [] lines) }
{
    let mut lines = no_lines(alloc, factory);
    lines.text.reserve(room)?;
    Ok(lines)
}

/// Lines and then others, in a text with room for so many bytes more. `TooLong` comes exactly where they have more than
/// 67,108,864 characters together, or more texts, line breaks and choices than that; `Memory` for want of memory.
pub fn together<F: Factory>(
    factory: &F,
    first: Lines<F::Cost>,
    second: Lines<F::Cost>,
    ahead: usize,
) -> Result<Lines<F::Cost>, FormatError>
    requires first { (w : ℕ) × (ps : List Paragraph) × AreLinesOf (F.costs factory.now) w ps first }
    requires second { (w : ℕ) × (ps : List Paragraph) × AreLinesOf (F.costs factory.now) w ps second }
    ensures lines { IfOk result (λ both. (w : ℕ) (ps qs : List Paragraph) → AreLinesOf (F.costs factory.now) w ps first
        → AreLinesOf (F.costs factory.now) w qs second → AreLinesOf (F.costs factory.now) w (ps ++ qs) both) }
    ensures too_long { IsErrOf result FormatError.TooLong → (w : ℕ) (ps qs : List Paragraph)
        → AreLinesOf (F.costs factory.now) w ps first → AreLinesOf (F.costs factory.now) w qs second
        → ArePastLimit (F.costs factory.now) w (ps ++ qs) }
{
    let characters = sum_of(first.characters, second.characters)?;
    let weight = sum_of(first.weight, second.weight)?;
    let cost = factory.add(first.cost, second.cost);
    let within = both_hold(first.within, second.within);
    let mut choices = first.choices;
    let mut others = second.choices;
    choices.append(&mut others)?;
    let mut text = first.text;
    let mut other = second.text;
    add_text(&mut text, &mut other, ahead)?;
    Ok(Lines {
        choices,
        text,
        cost,
        within,
        characters,
        weight,
    })
}

// Puts another text behind the text, or takes it as it is where the text has nothing and no room for it. What the other
// is then has no meaning. The text is given room for so many bytes more.
fn add_text(text: &mut String, other: &mut String, ahead: usize) -> Result<(), AllocError>
    ensures { OnOk result (string_bytes text.new ≡ string_bytes text.old ++ string_bytes other.old) }
{
    if text.is_empty() && text.capacity() < other.len() {
        mem::swap(text, other);
        return Ok(());
    }
    text.reserve(other.len().saturating_add(ahead))?;
    text.push_str(other)
}

/// Adds a form behind the lines, with so many blank lines behind it. `TooLong` comes exactly where they have more than
/// 67,108,864 characters then, or more texts, line breaks and choices than that; `Memory` for want of memory. What the
/// form's text is then has no meaning.
pub fn add_form<F: Factory>(
    factory: &F,
    lines: &mut Lines<F::Cost>,
    form: &mut Form<F::Cost>,
    blanks: u32,
) -> Result<(), FormatError>
    requires lines { (w : ℕ) × (ps : List Paragraph) × AreLinesOf (F.costs factory.now) w ps lines.old }
    requires form { (w : ℕ) × (d : Doc) × IsDocument d × IsFormOf (F.costs factory.now) w d form.old }
    ensures lines { OnOk result ((w : ℕ) (ps : List Paragraph) (d : Doc) → IsDocument d
        → AreLinesOf (F.costs factory.now) w ps lines.old → IsFormOf (F.costs factory.now) w d form.old
        → AreLinesOf (F.costs factory.now) w (ps ++ record { doc = d; blanks = blanks } ∷ []) lines.new) }
    ensures too_long { IsErrOf result FormatError.TooLong → (w : ℕ) (ps : List Paragraph) (d : Doc)
        → AreLinesOf (F.costs factory.now) w ps lines.old → IsFormOf (F.costs factory.now) w d form.old
        → ArePastLimit (F.costs factory.now) w (ps ++ record { doc = d; blanks = blanks } ∷ []) }
{
    let ends = sum_of(1, blanks)?;
    let characters = sum_of(lines.characters, char_count(&form.text) as u32 + ends)?;
    let weight = sum_of(lines.weight, form.weight + ends)?;
    lines.choices.extend_from_slice(&form.choices)?;
    add_text(&mut lines.text, &mut form.text, 0)?;
    push_ends(&mut lines.text, ends)?;
    lines.cost = factory.add(lines.cost, ends_cost(factory, form.cost, ends));
    lines.within = both_hold(lines.within, form.within);
    lines.characters = characters;
    lines.weight = weight;
    Ok(())
}

// Two numbers together, within the limit. It is too long where they are more.
fn sum_of(first: u32, second: u32) -> Result<u32, FormatError>
    requires { first ≤ LAYOUT_LIMIT }
    ensures sum { IfOk result (λ sum. sum ≡ first + second) }
    ensures within { IfOk result (λ sum. sum ≤ LAYOUT_LIMIT) }
    ensures too_long { IsErrOf result FormatError.TooLong → LAYOUT_LIMIT < first + second }
{
    if second > LAYOUT_LIMIT - first {
        return Err(FormatError::TooLong);
    }
    Ok(first + second)
}

// Whether both hold.
fn both_hold(first: bool, second: bool) -> bool
    ensures { result ≡ (first && second) }
{
    first && second
}
