// Sources that are cut, deep or at the widths' ends.
use crate::rows::{parted, read_signs};
use crate::runs::{carried_out, ends, fine, plain, stopped};
use rf_edges::OpenGate;
use rf_top::Status;
use std::alloc::{AllocError, Global};
use std::process::Abort;
use std::test::Fail;
use std::thread::Threads;

// A row is words, a number, what the signs « and » stand for so many times, a source, and its text or why it is
// refused, with arrows between. The sign ⏎ stands for LF.
const ROWS: &str = " ⇒ 0 ⇒  ⇒  ⇒ #!x ⇒ BadHash at 0
 ⇒ 0 ⇒  ⇒  ⇒ #lang ⇒ LanguageLine at 0
 ⇒ 0 ⇒  ⇒  ⇒ #lang datalog ⇒ LanguageReader at 0
 ⇒ 500 ⇒ ' ⇒  ⇒ «a ⇒ «a⏎
 ⇒ 501 ⇒ ' ⇒  ⇒ «a ⇒ TooDeep at 500
 ⇒ 500 ⇒ #; ⇒  ⇒ «a ⇒ NothingAfter at 996
 ⇒ 501 ⇒ #; ⇒  ⇒ «a ⇒ TooDeep at 1000
 ⇒ 101 ⇒ ( ⇒  ⇒ « ⇒ OpenList at 100
 ⇒ 500 ⇒ ( ⇒ ) ⇒ «» ⇒ «»⏎
 ⇒ 501 ⇒ ( ⇒ ) ⇒ «» ⇒ TooDeep at 500
 ⇒ 262144 ⇒ ( ⇒  ⇒ « ⇒ TooDeep at 500
 ⇒ 262144 ⇒ ( ⇒  ⇒ )« ⇒ CloseWithout at 0
 ⇒ 262144 ⇒ ' ⇒  ⇒ «\" ⇒ OpenString at 262144
--limit 1 --choices ⇒ 0 ⇒  ⇒  ⇒ (a b) ⇒ cost 2⏎within no⏎choices L⏎
--width 400 --limit 400 --choices ⇒ 396 ⇒ a ⇒  ⇒ (f «) ⇒ cost 1⏎within yes⏎choices RL⏎
--width 400 --limit 400 --choices ⇒ 397 ⇒ a ⇒  ⇒ (f «) ⇒ cost 2⏎within yes⏎choices L⏎";

// A program with comments, blank lines and keywords. The sign ⏎ stands for CR LF.
const POINTS: &str =
    "#lang racket/base⏎; Points.⏎(require racket/list   racket/string)⏎⏎⏎⏎(struct point (x y)⏎  \
    #:transparent)⏎(define (norm p) ; squared⏎  \
    (let ([x (point-x p)]⏎        [y (point-y p)])⏎    (+ (* x x) (* y y))))⏎\
    (define (sign n)⏎  (cond [(< n 0) 'neg] [(= n 0) 'zero]⏎        ; the rest⏎        [else 'pos]))⏎\
    (for ([i (in-range 3)]) (displayln (norm (point i i))))⏎";

// The text with its signs read.
fn unfolded(
    alloc: Global,
    text: &str,
    count: usize,
    opened: &str,
    closed: &str,
) -> Result<String, AllocError> {
    let mut whole = String::new(alloc);
    for sign in read_signs(alloc, text)?.chars() {
        match sign {
            '«' => push_times(&mut whole, opened, count)?,
            '»' => push_times(&mut whole, closed, count)?,
            other => whole.push(other)?,
        }
    }
    Ok(whole)
}

// Appends the text so many times.
fn push_times(whole: &mut String, text: &str, count: usize) -> Result<(), AllocError> {
    for _ in 0..count {
        whole.push_str(text)?;
    }
    Ok(())
}

#[test]
fn hostile_sources_are_answered(rt: HostRuntime) -> Result<(), Fail> {
    for row in ROWS.split('\n') {
        let (words, cells) = parted(row);
        let (count, cells) = parted(cells);
        let (opened, cells) = parted(cells);
        let (closed, cells) = parted(cells);
        let (source, answer) = parted(cells);
        let count = count.parse::<usize>().unwrap_or(0);
        let source = unfolded(rt.alloc(), source, count, opened, closed)?;
        let text = unfolded(rt.alloc(), answer, count, opened, closed)?;
        let line = format!(in rt.alloc(); "source: {answer}\n")?;
        let end = if text.as_str().ends_with('\n') {
            fine(text.as_bytes())
        } else {
            stopped(Status::SourceRefused, line.as_bytes())
        };
        let mut plan = plain(source.as_bytes());
        plan.words = if words.is_empty() { None } else { Some(words) };
        ends(&rt, rt.alloc(), &plan, end, row)?;
    }
    Ok(())
}

// Whether the source is accepted: it is laid out, and its text gives itself, or it is refused, and nothing is written.
fn is_accepted<R: Threads + Abort + Sync>(
    rt: &R,
    alloc: Global,
    source: &[u8],
    row: &str,
) -> Result<bool, Fail> {
    let first = carried_out(rt, alloc, &plain(source), &OpenGate)?;
    if first.status != Status::Fine {
        assert_eq!(rt; first.status, Status::SourceRefused, "{row}");
        assert_eq!(rt; first.out.bytes(), b"".as_slice(), "{row}");
        return Ok(false);
    }
    let again = carried_out(rt, alloc, &plain(first.out.bytes()), &OpenGate)?;
    assert_eq!(rt; again.status, Status::Fine, "{row}");
    assert_eq!(rt; again.out.bytes(), first.out.bytes(), "{row}");
    Ok(true)
}

#[test]
fn each_prefix_of_a_program_is_answered(rt: HostRuntime) -> Result<(), Fail> {
    let mut source = String::new(rt.alloc());
    for sign in POINTS.chars() {
        match sign {
            '⏎' => source.push_str("\r\n")?,
            other => source.push(other)?,
        }
    }
    let mut accepted = 0u32;
    for end in 0..source.len() {
        let prefix = source.as_bytes().get(..end).unwrap_or(b"");
        let row = format!(in rt.alloc(); "the first {end} bytes")?;
        if is_accepted(&rt, rt.alloc(), prefix, &row)? {
            accepted = accepted.saturating_add(1);
        }
    }
    assert_eq!(rt; accepted, 42);
    Ok(())
}

#[test]
fn lists_99_deep_are_laid_out(rt: HostRuntime) -> Result<(), Fail> {
    let source = unfolded(rt.alloc(), "«b»", 99, "(a ", ")")?;
    assert_eq!(rt; is_accepted(&rt, rt.alloc(), source.as_bytes(), "")?, true);
    Ok(())
}
