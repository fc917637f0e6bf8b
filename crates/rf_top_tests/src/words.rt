// What words ask for, row by row.
//
// A row is words with one space between, a source, and its answer, with arrows between. The sign ⏎ stands for LF.
use crate::rows::{parted, read_signs};
use crate::runs::{End, ends, fine, plain, stopped, worded};
use rf_top::Status;
use std::test::Fail;

// Words that are refused, with one space between. The empty row is one empty word.
const REFUSED: &str = "

-
-- x
x
--choice
--choices=
--choices=1
--help
-h
-w 80
--width
--width 0
--width 401
--width -1
--width a
--width 80 --width 80
--limit 0
--limit 401
--max-blank-lines 10
--max-blank-lines -1
--cost
--cost cubes
--cost Squares
--columns wide
--jobs 0
--jobs 65
--sample 0
--sample 10001
--style
--check --choices
--check --summary
--choices --summary
--check --check
--choices x
x --choices";

// Words, sources and what is written for them.
const ANSWERS: &str = "--width 10 ⇒ (foo alpha beta) ⇒ (foo alpha⏎     beta)⏎
--width 10 --choices ⇒ (foo alpha beta) ⇒ cost 2⏎within yes⏎choices RL⏎
--choices --width 10 ⇒ (foo alpha beta) ⇒ cost 2⏎within yes⏎choices RL⏎
--width 9 ⇒ (foo alpha beta) ⇒ (foo⏎ alpha⏎ beta)⏎
--width 9 --choices ⇒ (foo alpha beta) ⇒ cost 3⏎within yes⏎choices L⏎
--limit 5 ⇒ (f abcdefghijkl) ⇒ (f⏎ abcdefghijkl)⏎
--limit 5 --choices ⇒ (f abcdefghijkl) ⇒ cost 2⏎within no⏎choices L⏎
--width 10 ⇒ (f (g aaaa bbbb) cc) ⇒ (f⏎ (g aaaa⏎    bbbb)⏎ cc)⏎
--width 10 --choices ⇒ (f (g aaaa bbbb) cc) ⇒ cost 4⏎within yes⏎choices LRL⏎
--width=5 ⇒ '(a b c) ⇒ '(a⏎  b⏎  c)⏎
--width=5 --choices ⇒ '(a b c) ⇒ cost 3⏎within yes⏎choices L⏎
--width 9 --cost lines ⇒ (foo alpha beta) ⇒ (foo alpha beta)⏎
--width 9 --cost lines --choices ⇒ (foo alpha beta) ⇒ cost 1⏎within yes⏎choices RR⏎
--width 9 --cost linear --choices ⇒ (foo alpha beta) ⇒ cost 3⏎within yes⏎choices L⏎
--width 2 --cost linear --choices ⇒ abcd ⇒ cost 2199023255553⏎within yes⏎choices⏎
--width 2 --cost squares --choices ⇒ abcd ⇒ cost 4398046511105⏎within yes⏎choices⏎
--width 2 --cost lines --choices ⇒ abcd ⇒ cost 1⏎within yes⏎choices⏎
--width 9 --choices ⇒ (f 漢字 b) ⇒ cost 1⏎within yes⏎choices RR⏎
--width 9 --columns display ⇒ (f 漢字 b) ⇒ (f 漢字⏎   b)⏎
--width 9 --columns display --choices ⇒ (f 漢字 b) ⇒ cost 2⏎within yes⏎choices RL⏎
--width 8 --columns characters ⇒ (f 日本 b) ⇒ (f 日本 b)⏎
--width 8 --columns display ⇒ (f 日本 b) ⇒ (f 日本⏎   b)⏎
--max-blank-lines 0 ⇒ (f⏎⏎⏎a) ⇒ (f a)⏎
--max-blank-lines 1 ⇒ (f⏎⏎⏎a) ⇒ (f⏎⏎ a)⏎
--max-blank-lines 2 ⇒ (f⏎⏎⏎a) ⇒ (f⏎⏎⏎ a)⏎
--max-blank-lines 9 ⇒ a⏎⏎⏎⏎b ⇒ a⏎⏎⏎⏎b⏎
--jobs 64 ⇒ (a   b) ⇒ (a b)⏎
--summary ⇒  ⇒ bytes 0⏎items 0⏎lines 0⏎cost 0⏎within yes⏎
--summary ⇒ (a (b é)) ⇒ bytes 10⏎items 7⏎lines 1⏎cost 1⏎within yes⏎
--check ⇒  ⇒ 
--check ⇒ (a b)⏎ ⇒ 
--sample 1 --choices ⇒ ) ⇒ cost 8⏎within yes⏎choices LRRRLLLRLRR⏎
--sample 1 --summary ⇒ ) ⇒ bytes 98⏎items 45⏎lines 8⏎cost 8⏎within yes⏎
--sample 2 --summary ⇒ ) ⇒ bytes 129⏎items 56⏎lines 11⏎cost 11⏎within yes⏎
--width 20 --limit 20 ⇒ (begin (f a b) \"aaaaaaaaaaaaaaaaaaaaaaaa\" (g a b)) ⇒ (begin⏎  (f a b)⏎  \"aaaaaaaaaaaaaaaaaaaaaaaa\"⏎  (g a b))⏎
--width 20 --limit 20 --choices ⇒ (begin (f a b) \"aaaaaaaaaaaaaaaaaaaaaaaa\" (g a b)) ⇒ cost 70368744177668⏎within no⏎choices RRRR⏎";

// Sources that differ from their texts, and the first line that differs.
const DIFFERING: &str = "(a   b)⏎ ⇒ 1
(a b) ⇒ 2
a⏎b⏎⏎⏎⏎c⏎ ⇒ 4
a⏎⏎ ⇒ 3
a⏎(b⏎ c)⏎ ⇒ 2";

// A program that is its own layout.
pub(crate) const POINTS: &str = "#lang racket/base
; Points.
(require racket/list racket/string)

(struct point (x y) #:transparent)
(define (norm p) ; squared
  (let ([x (point-x p)] [y (point-y p)])
    (+ (* x x) (* y y))))
(define (sign n)
  (cond
    [(< n 0) 'neg]
    [(= n 0) 'zero]
    ; the rest
    [else 'pos]))
(for ([i (in-range 3)])
  (displayln (norm (point i i))))
";

#[test]
fn words_are_refused(rt: HostRuntime) -> Result<(), Fail> {
    let usage = b"usage: rf_fmt [--width N] [--limit N] [--max-blank-lines N] [--style FILE] \
        [--cost squares|linear|lines] [--columns characters|display] [--jobs N] \
        [--check | --choices | --summary] [--sample N]\n";
    let end = stopped(Status::WordsRefused, usage);
    for words in REFUSED.split('\n') {
        let mut plan = worded(words, b"(a b)");
        plan.read_fails = 1;
        plan.style_fails = 1;
        ends(&rt, rt.alloc(), &plan, end, words)?;
    }
    Ok(())
}

#[test]
fn words_are_followed(rt: HostRuntime) -> Result<(), Fail> {
    for row in ANSWERS.split('\n') {
        let (words, texts) = parted(row);
        let (source, answer) = parted(texts);
        let source = read_signs(rt.alloc(), source)?;
        let answer = read_signs(rt.alloc(), answer)?;
        let mut plan = worded(words, source.as_bytes());
        plan.style_fails = 1;
        ends(&rt, rt.alloc(), &plan, fine(answer.as_bytes()), row)?;
    }
    Ok(())
}

// An end at which the text differs from the source, first in the line that is told.
fn differing(told: &[u8]) -> End<'_> {
    End {
        status: Status::Differs,
        out: told,
        err: b"",
    }
}

#[test]
fn the_first_line_that_differs_is_told(rt: HostRuntime) -> Result<(), Fail> {
    for row in DIFFERING.split('\n') {
        let (source, line) = parted(row);
        let source = read_signs(rt.alloc(), source)?;
        let told = format!(in rt.alloc(); "line {line}\n")?;
        let plan = worded("--check", source.as_bytes());
        ends(&rt, rt.alloc(), &plan, differing(told.as_bytes()), row)?;
    }
    Ok(())
}

#[test]
fn a_program_is_compared_with_its_layout(rt: HostRuntime) -> Result<(), Fail> {
    let mut plan = worded("--check", POINTS.as_bytes());
    ends(&rt, rt.alloc(), &plan, fine(b""), "its own layout")?;
    let (before, after) = POINTS.split_once("(for").unwrap_or((POINTS, ""));
    let moved = format!(in rt.alloc(); "{before} (for{after}")?;
    plan.source = moved.as_bytes();
    let end = differing(b"line 15\n");
    ends(&rt, rt.alloc(), &plan, end, "with one space more")
}

#[test]
fn a_sample_is_taken_in_place_of_the_input(rt: HostRuntime) -> Result<(), Fail> {
    let mut plan = worded("--sample 1", b")");
    plan.read_fails = 1;
    let text = b"#lang racket/base

(define (f0 x y)
  (cond
    [(< x 0) (g0 x y)]
    [else
     (let ([z (+ x 0)])
       (h z y))]))
";
    ends(&rt, rt.alloc(), &plan, fine(text), "")
}
