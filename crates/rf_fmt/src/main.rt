//! The formatter as a program: it makes the real edges, runs, and ends with the status's number.
#![tactic(auto)]

ghost use Rattle.std.specs.Prelude.{◌≡◌, ◌≢◌, ◌+◌, ◌⊎◌, ◌++◌, ℕ, [], IfOk, IfErr, codes, drop};
ghost use Rattle.std.specs.Vec.Iter.{into_iter_items};
ghost use Rattle.std.specs.Process.{exit_status};
ghost use Rattle.std.specs.Io.KnownBytes.{IsAtEnd};
ghost use Rattle.std.specs.IoError.{error_kind};
ghost use Rattle.rf_edges.specs.Bytes.{TakesAtMost};
ghost use Rattle.rf_edges.specs.Faults.{Rose};
ghost use Rattle.rf_top.specs.Asking.{AreRefused, AskForInput, AskForSample, NameNone};
ghost use Rattle.rf_top.specs.Answer.{Answer};
ghost use Rattle.rf_top.specs.Lines.{line_of, status_of};
ghost use Rattle.rf_top.specs.Running.{AnswersTold, EachAnswer, Gets, ReadFailed, Tells, TellsWhy, told_of};
ghost use Rattle.rf_fmt.specs.Ending.{number_of, unread_stop};

use rf_base_grammar::SOURCE_LIMIT;
use rf_edges::{DirShelf, OpenGate, Shelf, Sink, Source, StdSink, StdSource};
use rf_top::{Status, Stop, end, run};
use std::alloc::{AllocError, Global};
use std::env::{self, Args, Env, FillError};
use std::io::{self, ErrorKind};
use std::process::ExitCode;
use std::thread::Threads;

// An entry function carries no clause: what is decided is decided by `words_given` and `format`.
fn main(rt: HostRuntime) -> ExitCode {
    format(
        &rt,
        rt.alloc(),
        words_given(&rt, rt.alloc(), env::args(&rt)),
        &mut StdSource::new(rt.stdin()),
        &mut DirShelf::new(&rt),
        &mut StdSink::new(rt.stdout()),
        &mut StdSink::new(rt.stderr()),
    )
}

// Runs with these words, and answers the number of the run's status. Where there are no words, it says why, and
// neither reads nor writes anything else.
fn format<R: Threads + Sync, S: Source, H: Shelf, K: Sink, E: Sink>(
    rt: &R,
    alloc: Global,
    given: Result<Vec<String>, Stop>,
    input: &mut S,
    shelf: &mut H,
    out: &mut K,
    err: &mut E,
) -> ExitCode
    // The number is that of a status, and `out` and `err` got what a run of these words that ends so gives them.
    ensures answer { IfOk given (λ words. (ended : Status) × (answer : Answer) × (exit_status result ≡ number_of ended)
        × TellsWhy answer × Gets ended answer (K.written out.old) (K.written out.new)
        × Tells (E.written err.old) (E.written err.new) (E.faults err.old) (E.faults err.new) (told_of ended answer)
        × AnswersTold ended words.items (H.file shelf.old) (S.left input.old) answer) }

    // Where neither the outside nor memory fails, the number is that of the answer.
    ensures complete { IfOk given (λ words. EachAnswer words.items (H.file shelf.old) (S.left input.old) (λ answer.
        (ReadFailed words.items (S.faults input.old) (S.faults input.new) (H.faults shelf.old) (H.faults shelf.new) → ⊥)
        → (Rose (K.faults out.old) (K.faults out.new) → ⊥)
        → (exit_status result ≡ number_of answer.status) ⊎ (exit_status result ≡ number_of Status.NoMemory))) }

    // When a number comes, whatever is told.
    ensures words { IfOk given (λ words. exit_status result ≡ number_of Status.WordsRefused → AreRefused words.items) }
    ensures refused { IfOk given (λ words. AreRefused words.items
        → (exit_status result ≡ number_of Status.WordsRefused) ⊎ (exit_status result ≡ number_of Status.NoMemory)) }
    ensures read_fault { IfOk given (λ words. exit_status result ≡ number_of Status.ReadFault → ReadFailed words.items
        (S.faults input.old) (S.faults input.new) (H.faults shelf.old) (H.faults shelf.new)) }
    ensures write_fault { IfOk given (λ words. exit_status result ≡ number_of Status.WriteFault
        → Rose (K.faults out.old) (K.faults out.new)) }

    // What stays.
    ensures nothing_early { IfOk given (λ words. exit_status result ≢ number_of Status.Fine
        → exit_status result ≢ number_of Status.Differs → exit_status result ≢ number_of Status.WriteFault
        → out.new ≡ out.old) }
    ensures to_its_end { IfOk given (λ words.
        (exit_status result ≡ number_of Status.Fine) ⊎ (exit_status result ≡ number_of Status.Differs)
        → AskForInput words.items → IsAtEnd (S.left input.new)) }
    ensures unread { (exit_status result ≡ number_of Status.StyleRefused)
        ⊎ (exit_status result ≡ number_of Status.WordsRefused) → input.new ≡ input.old }
    ensures sample { IfOk given (λ words. (n : ℕ) → AskForSample words.items n → input.new ≡ input.old) }
    ensures taken { TakesAtMost (S.left input.old) (S.left input.new) (SOURCE_LIMIT + 1) }
    ensures shelf { IfOk given (λ words. AreRefused words.items ⊎ NameNone words.items → shelf.new ≡ shelf.old) }

    // Where there are no words.
    ensures stopped { IfErr given (λ stop. exit_status result ≡ number_of (status_of stop)) }
    ensures told { IfErr given (λ stop. Tells (E.written err.old) (E.written err.new)
        (E.faults err.old) (E.faults err.new) (line_of stop ++ codes "\n")) }
    ensures untouched { IfErr given (λ stop. (input.new ≡ input.old) × (shelf.new ≡ shelf.old) × (out.new ≡ out.old)) }
{
    match given {
        Ok(words) => exit_code(run(rt, alloc, &words, input, shelf, out, err, &OpenGate)),
        Err(stop) => exit_code(end(err, &stop)),
    }
}

// The words: the arguments behind the program's name, or why there are none.
//
// An argument that isn't UTF-8 is a word, which is refused like any other, or the program's name alone. The arguments
// are read at once, so which of them isn't UTF-8 isn't told.
fn words_given<R: Env>(rt: &R, alloc: Global, args: io::Result<Args>) -> Result<Vec<String>, Stop>
    ensures words { IfOk args (λ all. IfOk result (λ words. words.items ≡ drop 1 (into_iter_items all))) }
    ensures memory { IfOk args (λ all. IfErr result (λ stop. stop ≡ Stop.Memory)) }
    ensures name { IfErr args (λ fault. IfOk result (λ words.
        (error_kind fault ≡ ErrorKind.InvalidData) × (words.items ≡ []))) }
    ensures fault { IfErr args (λ fault. IfErr result (λ stop. stop ≡ unread_stop (error_kind fault))) }
{
    match args {
        Ok(args) => Ok(words_of(alloc, args)?),
        Err(fault) if fault.kind() != ErrorKind::InvalidData => Err(Stop::Memory),
        Err(_) if has_word(rt) => Err(Stop::Words),
        Err(_) => Ok(Vec::new(alloc)),
    }
}

// Whether an argument follows the program's name.
fn has_word<R: Env>(rt: &R) -> bool {
    !matches!(rt.arg(1, &mut []), Err(FillError::NotPresent))
}

// The arguments behind the program's name. The error is want of memory.
fn words_of(alloc: Global, args: Args) -> Result<Vec<String>, AllocError>
    ensures { IfOk result (λ words. words.items ≡ drop 1 (into_iter_items args)) }
{
    args.skip(1).collect::<Vec<String>>(alloc)
}

// The status's number, to end with.
fn exit_code(status: Status) -> ExitCode
    ensures { exit_status result ≡ number_of status }
{
    ExitCode::from(status as u8)
}
