//! The whole program.

ghost use Rattle.std.specs.Prelude.{◌≡◌, ◌≢◌, ◌+◌, ◌⊎◌, ℕ, List, Some};
ghost use Rattle.std.specs.Io.KnownBytes.{Appends, IsAtEnd};
ghost use Rattle.rf_edges.specs.Bytes.{TakesAtMost};
ghost use Rattle.rf_edges.specs.Faults.{Rose};
ghost use Rattle.rf_words.specs.WordsOf.{Said};
ghost use Rattle.rf_words.specs.declared.words.Mode.TheVariants.{Plain};
ghost use Rattle.rf_top.specs.Asking.{AreRefused, AreTold, AskForInput, AskForSample, NameNone, said_by};
ghost use Rattle.rf_top.specs.Answer.{Answer};
ghost use Rattle.rf_top.specs.Running.{AnswersTold, EachAnswer, Gets, IsDone, IsLayoutFor, ReadFailed, Tells, TellsWhy, told_of};

use crate::answering::replied;
use crate::status::Status;
use crate::stops::Stop;
use crate::telling::end;
use rf_base_grammar::SOURCE_LIMIT;
use rf_edges::{Gate, Shelf, Sink, Source, write_whole};
use std::alloc::Global;
use std::thread::Threads;

/// Formats a source, and writes to `out` what its words ask for.
///
/// The source is what `input` has left, or with `--sample N` the sample of N forms; it holds at most 4,194,304 bytes.
/// The style is that of the style file that `--style FILE` names on the shelf, of at most 1,048,576 bytes, or the
/// default one; `--width`, `--limit`, `--max-blank-lines`, `--cost` and `--columns` say what holds in place of it. The
/// layout is the best one of the style: of the layouts within the computation width none costs less, where there is
/// one; otherwise the same holds part by part.
///
/// Written is the layout; with `--check` nothing where it equals the source, and otherwise `line K` for the first line
/// that differs; with `--choices` what the layout costs, whether it is within the computation width, and the choices
/// that pick it; with `--summary` how many bytes and items the source has, how many line breaks the layout, what it
/// costs, and whether it is within the computation width.
///
/// For the source `(a   (b c))` it writes `(a (b c))`, and with `--choices` the lines `cost 1`, `within yes` and
/// `choices RLRL`; for `(a]` it writes nothing, and `source: CloseMismatch at 2` to `err`.
///
/// Words come first, then the style file, the source, its layout and the writing: what is refused first ends the run.
/// The forms of a part of the source at a time are laid out in as many jobs as `--jobs` says, each of which enters the
/// gate; the answer is the same for every number of jobs and every gate. Nothing is written to `out` before the whole
/// answer is made, and no memory is taken from then on. Where the run ends neither Fine nor Differs, a line that says
/// why is written to `err`, as much of it as can be.
///
/// Fine and Differs say that the answer was written whole. SourceRefused: the source is too long, or refused with a
/// kind at an offset. StyleRefused: the style file is too long, or says no style. WordsRefused: other words. TooLong:
/// the layout has more than 67,108,864 characters, or more texts, line breaks and choices than that. ReadFault: a read
/// of the input or of the style file failed. WriteFault: a write of the answer failed, which then stands on `out` in
/// part. NoMemory: memory ran out.
pub fn run<R: Threads + Sync, S: Source, H: Shelf, K: Sink, E: Sink, G: Gate + Sync>(
    rt: &R,
    alloc: Global,
    words: &[String],
    input: &mut S,
    shelf: &mut H,
    out: &mut K,
    err: &mut E,
    gate: &G,
) -> Status
    // What Fine writes without a flag: the source's layout, which is a best one and reads back as the source's items
    // and tree.
    ensures headline { (file source : List ℕ) → AreTold words.now (H.file shelf.old) (S.left input.old) file source
        → result ≡ Status.Fine → (said : Said) → said_by words.now ≡ Some said → said.mode ≡ Plain
        → (bytes : List ℕ) × IsLayoutFor said file source bytes
        × Appends (K.written out.old) (K.written out.new) bytes }

    // What `out` and `err` get in every case, and what it is of the words, the style file and the source.
    ensures answer { (answer : Answer) × TellsWhy answer
        × Gets result answer (K.written out.old) (K.written out.new)
        × Tells (E.written err.old) (E.written err.new) (E.faults err.old) (E.faults err.new) (told_of result answer)
        × AnswersTold result words.now (H.file shelf.old) (S.left input.old) answer }

    // Where neither the outside nor memory fails, the run ends as its answer says.
    ensures complete { EachAnswer words.now (H.file shelf.old) (S.left input.old) (λ answer.
        (ReadFailed words.now (S.faults input.old) (S.faults input.new) (H.faults shelf.old) (H.faults shelf.new) → ⊥)
        → (Rose (K.faults out.old) (K.faults out.new) → ⊥)
        → (result ≡ answer.status) ⊎ (result ≡ Status.NoMemory)) }

    // When a status comes, whatever is told.
    ensures words { result ≡ Status.WordsRefused → AreRefused words.now }
    ensures refused { AreRefused words.now → (result ≡ Status.WordsRefused) ⊎ (result ≡ Status.NoMemory) }
    ensures read_fault { result ≡ Status.ReadFault
        → ReadFailed words.now (S.faults input.old) (S.faults input.new) (H.faults shelf.old) (H.faults shelf.new) }
    ensures write_fault { result ≡ Status.WriteFault → Rose (K.faults out.old) (K.faults out.new) }

    // What stays. The output is one thing that does where memory ran out: from the first write on none is taken.
    ensures nothing_early { (IsDone result → ⊥) → result ≢ Status.WriteFault → out.new ≡ out.old }
    ensures to_its_end { IsDone result → AskForInput words.now → IsAtEnd (S.left input.new) }
    ensures unread { (result ≡ Status.WordsRefused) ⊎ (result ≡ Status.StyleRefused) → input.new ≡ input.old }
    ensures sample { (n : ℕ) → AskForSample words.now n → input.new ≡ input.old }
    ensures taken { TakesAtMost (S.left input.old) (S.left input.new) (SOURCE_LIMIT + 1) }
    ensures shelf { AreRefused words.now ⊎ NameNone words.now → shelf.new ≡ shelf.old }
{
    match replied(rt, alloc, words, input, shelf, gate) {
        Ok(reply) => match write_whole(out, reply.text.as_bytes()) {
            Ok(()) => reply.status,
            Err(_) => end(err, &Stop::Write),
        },
        Err(stop) => end(err, &stop),
    }
}
