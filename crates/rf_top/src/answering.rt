//! The answer of a run, where neither the outside nor memory fails.

ghost use Rattle.std.specs.Prelude.{◌≡◌, ◌<◌, ◌+◌, ◌≤◌, ◌⊎◌, ℕ, Err, List, length, IfOk, IfErr, OnOk, IsErrOf, string_bytes};
ghost use Rattle.std.specs.Io.KnownBytes.{IsAtEnd};
ghost use Rattle.rf_edges.specs.Bytes.{TakesAtMost};
ghost use Rattle.rf_base_style.specs.Table.{IsStyle};
ghost use Rattle.rf_style.specs.StyleOf.{seen};
ghost use Rattle.rf_text.specs.Lines.{first_difference};
ghost use Rattle.rf_words.specs.Answers.{seen as seen_words};
ghost use Rattle.rf_words.specs.Laws.{KeepRanges};
ghost use Rattle.rf_top.specs.Asking.{AreRefused, AreTold, AskForInput, AskForSample, NameNone};
ghost use Rattle.rf_top.specs.Answer.{IsAnswer, IsAnswerIn, compared, fine, stopped};
ghost use Rattle.rf_top.specs.Lines.{SourceStops};
ghost use Rattle.rf_top.specs.Running.{EndsEarly, OfLayout, OrOutside, ReadFailed, IsDone, answer_of};

use crate::asking::{source_asked, style_asked};
use crate::formatting::format_source;
use crate::listing::{choices_lines, summary_lines};
use crate::status::Status;
use crate::stops::Stop;
use rf_base_grammar::SOURCE_LIMIT;
use rf_edges::{Gate, Shelf, Source};
use rf_style::Style;
use rf_text::first_difference;
use rf_words::{Mode, Words, read_words};
use std::alloc::{AllocError, Global};
use std::thread::Threads;

/// What a run writes that doesn't stop, and how it then ends: `Fine` or `Differs`.
#[derive(Debug, Drop)]
pub struct Reply {
    pub status: Status,
    pub text: String,
}

/// The reply to these words, or why there is none.
pub fn replied<R: Threads + Sync, S: Source, H: Shelf, G: Gate + Sync>(
    rt: &R,
    alloc: Global,
    words: &[String],
    input: &mut S,
    shelf: &mut H,
    gate: &G,
) -> Result<Reply, Stop>
    ensures answer { IfOk result (λ reply. (file source : List ℕ)
        → AreTold words.now (H.file shelf.old) (S.left input.old) file source
        → IsAnswer words.now file source (answer_of reply)) }
    ensures stopped { IfErr result (λ stop. (file source : List ℕ)
        → AreTold words.now (H.file shelf.old) (S.left input.old) file source
        → OrOutside stop (IsAnswer words.now file source (stopped stop))) }
    ensures done { IfOk result (λ reply. IsDone reply.status) }
    ensures not_write { IsErrOf result Stop.Write → ⊥ }
    ensures words { IsErrOf result Stop.Words → AreRefused words.now }
    ensures refused { AreRefused words.now → (result ≡ Err Stop.Words) ⊎ (result ≡ Err Stop.Memory) }
    ensures fault { IsErrOf result Stop.Read → ReadFailed words.now (S.faults input.old) (S.faults input.new)
        (H.faults shelf.old) (H.faults shelf.new) }
    ensures end { OnOk result (AskForInput words.now → IsAtEnd (S.left input.new)) }
    ensures taken { TakesAtMost (S.left input.old) (S.left input.new) (SOURCE_LIMIT + 1) }
    ensures unread { IfErr result (λ stop. EndsEarly stop → input.new ≡ input.old) }
    ensures sample { (n : ℕ) → AskForSample words.now n → input.new ≡ input.old }
    ensures shelf { AreRefused words.now ⊎ NameNone words.now → shelf.new ≡ shelf.old }
{
    let said = read_words(alloc, words)?;
    let style = style_asked(alloc, &said, shelf)?;
    let source = source_asked(alloc, &said, input)?;
    replied_in(rt, alloc, &said, &style, &source, gate)
}

// The reply of the words' mode for a source, which holds at most 4,194,304 bytes, in a style, or why there is none.
fn replied_in<R: Threads + Sync, G: Gate + Sync>(
    rt: &R,
    alloc: Global,
    said: &Words,
    style: &Style,
    source: &[u8],
    gate: &G,
) -> Result<Reply, Stop>
    requires ranges { KeepRanges (seen_words said.now).numbers }
    requires style { IsStyle (seen style.now) }
    requires short { length source.now ≤ SOURCE_LIMIT }
    ensures answer { IfOk result (λ reply. IsAnswerIn said.now.mode style.now source.now (answer_of reply)) }
    ensures stopped { IfErr result (λ stop. OrOutside stop (SourceStops style.now source.now stop)) }
    ensures done { IfOk result (λ reply. IsDone reply.status) }
    ensures only { IfErr result OfLayout }
{
    let made = format_source(rt, alloc, style, source, said.jobs, gate)?;
    let formatted = made.formatted;
    match said.mode {
        Mode::Plain => Ok(fine(formatted.text)),
        Mode::Check => Ok(compared(alloc, source, formatted.text.as_bytes())?),
        Mode::Choices => Ok(fine(choices_lines(alloc, &formatted)?)),
        Mode::Summary => Ok(fine(summary_lines(alloc, source.len(), made.items, &formatted)?)),
    }
}

// The reply of a run that ends Fine.
fn fine(text: String) -> Reply
    ensures answer { answer_of result ≡ fine (string_bytes text) }
    ensures done { IsDone result.status }
{
    Reply {
        status: Status::Fine,
        text,
    }
}

// The reply where a text is compared with its source: the first line that differs, or nothing.
fn compared(alloc: Global, source: &[u8], text: &[u8]) -> Result<Reply, AllocError>
    requires source { length source.now < 4294967295 }
    requires text { length text.now < 4294967295 }
    ensures answer { IfOk result (λ reply. answer_of reply ≡ compared (first_difference source.now text.now)) }
    ensures done { IfOk result (λ reply. IsDone reply.status) }
{
    let Some(line) = first_difference(source, text) else {
        return Ok(fine(String::new(alloc)));
    };
    Ok(Reply {
        status: Status::Differs,
        text: format!(in alloc; "line {line}\n")?,
    })
}
