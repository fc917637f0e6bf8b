//! What the words ask for: the style, and the source.

ghost use Rattle.std.specs.Prelude.{◌≡◌, ◌+◌, ◌≤◌, ℕ, Some, None, List, length, Ok, IfOk, IfErr, OnOk, IsErrOf};
ghost use Rattle.std.specs.Io.KnownBytes.{IsAtEnd};
ghost use Rattle.rf_edges.specs.Bytes.{TakesAtMost};
ghost use Rattle.rf_edges.specs.Faults.{Rose};
ghost use Rattle.rf_edges.specs.Files.{Bytes};
ghost use Rattle.rf_base_style.specs.Table.{IsStyle};
ghost use Rattle.rf_style.specs.StyleOf.{seen as seen_style, style_of};
ghost use Rattle.rf_style.specs.declared.style.Style.{Style as a_style};
ghost use Rattle.rf_words.specs.Answers.{seen};
ghost use Rattle.rf_words.specs.Laws.{KeepRanges, IsFrom};
ghost use Rattle.rf_sample.specs.Sample.{sample};
ghost use Rattle.rf_top.specs.Asking.{IsBase, IsFile, IsSource, styled};
ghost use Rattle.rf_top.specs.Lines.{FileStops, StyleStops, SourceStops};
ghost use Rattle.rf_top.specs.Running.{OfSource, OfStyle, OrOutside};

use crate::limits::STYLE_LIMIT;
use crate::stops::Stop;
use rf_base_grammar::SOURCE_LIMIT;
use rf_edges::{Shelf, Source, read_all};
use rf_sample::sample;
use rf_style::{Style, default_table, read_style};
use rf_words::Words;
use std::alloc::Global;

/// The style that words ask for: that of the style file that they name, or the default one, with what the words say in
/// place of its own. The shelf is asked for that file alone.
pub fn style_asked<H: Shelf>(alloc: Global, words: &Words, shelf: &mut H) -> Result<Style, Stop>
    requires ranges { KeepRanges (seen words.now).numbers }
    ensures style { IfOk result (λ style. (file : List ℕ) → IsFile (seen words.now).style (H.file shelf.old) file
        → (base : a_style) × IsBase (seen words.now).style file base × (style ≡ styled (seen words.now) base)) }
    ensures ranges { IfOk result (λ style. IsStyle (seen_style style)) }
    ensures stopped { IfErr result (λ stop. (file : List ℕ) → IsFile (seen words.now).style (H.file shelf.old) file
        → OrOutside stop (StyleStops (seen words.now).style file stop)) }
    ensures only { IfErr result OfStyle }
    ensures fault { IsErrOf result Stop.Read → (name : List ℕ) × ((seen words.now).style ≡ Some name)
        × Rose (H.faults shelf.old name) (H.faults shelf.new name) }
    ensures shelf { (seen words.now).style ≡ None → shelf.new ≡ shelf.old }
{
    let base = match &words.style {
        None => default_table(alloc)?,
        Some(name) => style_of_file(alloc, name.as_str(), shelf)?,
    };
    Ok(with_words(words, base))
}

// The style that the file of this name says.
fn style_of_file<H: Shelf>(alloc: Global, name: &str, shelf: &mut H) -> Result<Style, Stop>
    ensures style { IfOk result (λ style. (file : List ℕ) → H.file shelf.old name.now ≡ Bytes file
        → (length file ≤ STYLE_LIMIT) × (style_of file ≡ Ok style)) }
    ensures ranges { IfOk result (λ style. IsStyle (seen_style style)) }
    ensures stopped { IfErr result (λ stop. (file : List ℕ) → H.file shelf.old name.now ≡ Bytes file
        → OrOutside stop (FileStops file stop)) }
    ensures only { IfErr result OfStyle }
    ensures fault { IsErrOf result Stop.Read → Rose (H.faults shelf.old name.now) (H.faults shelf.new name.now) }
{
    let mut bytes = Vec::new(alloc);
    shelf.read_file(name, STYLE_LIMIT, &mut bytes)?;
    Ok(read_style(alloc, &bytes)?)
}

// The style with what the words say in place of its own.
fn with_words(words: &Words, base: Style) -> Style
    ensures { result ≡ styled (seen words.now) base }
{
    Style {
        width: words.width.unwrap_or(base.width),
        limit: words.limit.unwrap_or(base.limit),
        blanks: words.blanks.unwrap_or(base.blanks),
        cost: words.cost.unwrap_or(base.cost),
        columns: words.columns.unwrap_or(base.columns),
        forms: base.forms,
    }
}

/// The source that words ask for, which holds at most 4,194,304 bytes: the sample, or what the input has left. With a
/// sample the input isn't read.
pub fn source_asked<S: Source>(alloc: Global, words: &Words, input: &mut S) -> Result<Vec<u8>, Stop>
    requires ranges { KeepRanges (seen words.now).numbers }
    ensures source { IfOk result (λ bytes. (source : List ℕ) → IsSource words.now.sample (S.left input.old) source
        → bytes.items ≡ source) }
    ensures short { IfOk result (λ bytes. length bytes.items ≤ SOURCE_LIMIT) }
    ensures stopped { IfErr result (λ stop. (style : a_style) (source : List ℕ)
        → IsSource words.now.sample (S.left input.old) source → OrOutside stop (SourceStops style source stop)) }
    ensures only { IfErr result OfSource }
    ensures fault { IsErrOf result Stop.Read → Rose (S.faults input.old) (S.faults input.new) }
    ensures end { OnOk result (words.now.sample ≡ None → IsAtEnd (S.left input.new)) }
    ensures taken { TakesAtMost (S.left input.old) (S.left input.new) (SOURCE_LIMIT + 1) }
    ensures unread { (n : ℕ) → words.now.sample ≡ Some n → input.new ≡ input.old }
{
    match words.sample {
        None => Ok(read_all(alloc, input, SOURCE_LIMIT)?),
        Some(n) => sampled(alloc, n),
    }
}

// The sample of so many forms, from 1 to 10,000.
fn sampled(alloc: Global, n: u32) -> Result<Vec<u8>, Stop>
    requires number { IsFrom 1 10000 (Some n) }
    ensures source { IfOk result (λ bytes. bytes.items ≡ sample n) }
    ensures short { IfOk result (λ bytes. length bytes.items ≤ SOURCE_LIMIT) }
    ensures stopped { IfErr result (λ stop. (style : a_style) → OrOutside stop (SourceStops style (sample n) stop)) }
    ensures only { IfErr result OfSource }
    ensures not_read { IsErrOf result Stop.Read → ⊥ }
{
    let source = sample(alloc, n)?.into_bytes();
    if source.len() > SOURCE_LIMIT {
        return Err(Stop::SourceTooLong);
    }
    Ok(source)
}
