// Style files, row by row.
use crate::rows::{parted, read_signs};
use crate::runs::{ends, fine, plain, stopped, worded};
use rf_top::Status;
use std::test::Fail;

// Words beside `--style s`, style files, sources and their texts.
const LAID: &str =
    "--max-blank-lines 1 ⇒ [forms]⏎my-let = { shape = \"bindings\" }⏎ ⇒ (my-let ([a 1]) b) ⇒ (my-let ([a 1])⏎  b)⏎
--max-blank-lines 1 ⇒ width = 10⏎ ⇒ (foo alpha beta) ⇒ (foo alpha⏎     beta)⏎
--width 10 ⇒ width = 9⏎ ⇒ (foo alpha beta) ⇒ (foo alpha⏎     beta)⏎
--width 9 ⇒ cost = \"lines\"⏎ ⇒ (foo alpha beta) ⇒ (foo alpha beta)⏎
--width 9 --cost squares ⇒ cost = \"lines\"⏎ ⇒ (foo alpha beta) ⇒ (foo⏎ alpha⏎ beta)⏎
--width 8 ⇒ version = 2⏎columns = \"display\"⏎ ⇒ (f 日本 b) ⇒ (f 日本⏎   b)⏎
--columns characters --width 8 ⇒ version = 2⏎columns = \"display\"⏎ ⇒ (f 日本 b) ⇒ (f 日本 b)⏎
--width 102 ⇒ max-blank-lines = 0⏎ ⇒ (f⏎⏎⏎a) ⇒ (f a)⏎
--limit 5 ⇒ limit = 120⏎ ⇒ (f abcdefghijkl) ⇒ (f⏎ abcdefghijkl)⏎
--jobs 1 ⇒ version = 2⏎[forms]⏎foo = { shape = \"app\", charges = [0, 5, 5] }⏎ ⇒ (foo alpha beta) ⇒ (foo⏎ alpha⏎ beta)⏎
--choices ⇒ version = 2⏎[forms]⏎foo = { shape = \"app\", charges = [0, 5, 5] }⏎ ⇒ (foo alpha beta) ⇒ cost 3⏎within yes⏎choices L⏎
--jobs 1 ⇒ version = 2⏎[forms]⏎foo = { shape = \"app\", charges = [0, 1, 1] }⏎ ⇒ (foo alpha beta) ⇒ (foo alpha beta)⏎
--choices ⇒ version = 2⏎[forms]⏎foo = { shape = \"app\", charges = [0, 1, 1] }⏎ ⇒ (foo alpha beta) ⇒ cost 2⏎within yes⏎choices RR⏎";

// Style files that are refused, and how.
const REFUSED: &str = "= ⇒ StyleText
[forms]⏎foo = { shpe = \"app\" }⏎ ⇒ StyleKey shpe
wdth = 80⏎ ⇒ StyleKey wdth
columns = \"display\"⏎ ⇒ StyleKey columns
cost = \"cubes\"⏎ ⇒ StyleValue cost
width = \"80\"⏎ ⇒ StyleValue width
width = 0⏎ ⇒ StyleRange width 0
limit = 401⏎ ⇒ StyleRange limit 401
width = -9223372036854775808⏎ ⇒ StyleRange width -9223372036854775808
max-blank-lines = 9223372036854775807⏎ ⇒ StyleRange max-blank-lines 9223372036854775807
version = 3⏎ ⇒ StyleRange version 3
[forms]⏎foo = { shape = \"app\", charges = [0, 5, 5] }⏎ ⇒ StyleKey charges
version = 2⏎[forms]⏎foo = { shape = \"app\", charges = [0, 1] }⏎ ⇒ StyleValue charges
version = 2⏎[forms]⏎foo = { shape = \"app\", charges = [0, 0, 1001] }⏎ ⇒ StyleRange charges 1001
[forms]⏎foo = { header = 1 }⏎ ⇒ StyleValue foo
[forms]⏎foo = { shape = \"bindings\", header = 0 }⏎ ⇒ StyleRange header 0";

#[test]
fn styles_are_followed(rt: HostRuntime) -> Result<(), Fail> {
    for row in LAID.split('\n') {
        let (words, files) = parted(row);
        let (style, texts) = parted(files);
        let (source, text) = parted(texts);
        let words = format!(in rt.alloc(); "--style s {words}")?;
        let style = read_signs(rt.alloc(), style)?;
        let source = read_signs(rt.alloc(), source)?;
        let text = read_signs(rt.alloc(), text)?;
        let mut plan = worded(&words, source.as_bytes());
        plan.style = style.as_bytes();
        ends(&rt, rt.alloc(), &plan, fine(text.as_bytes()), row)?;
    }
    Ok(())
}

#[test]
fn styles_are_refused_before_the_source(rt: HostRuntime) -> Result<(), Fail> {
    for row in REFUSED.split('\n') {
        let (style, refusal) = parted(row);
        let style = read_signs(rt.alloc(), style)?;
        let line = format!(in rt.alloc(); "style: {refusal}\n")?;
        let mut plan = worded("--style s", b")");
        plan.style = style.as_bytes();
        plan.read_fails = 1;
        let end = stopped(Status::StyleRefused, line.as_bytes());
        ends(&rt, rt.alloc(), &plan, end, row)?;
    }
    Ok(())
}

#[test]
fn the_length_of_a_style_file_is_limited(rt: HostRuntime) -> Result<(), Fail> {
    let mut style = Vec::new(rt.alloc());
    style.resize(1_048_577, b' ')?;
    let mut plan = worded("--style s", b"a");
    plan.style = &style;
    let end = stopped(Status::StyleRefused, b"style: TooLong\n");
    ends(&rt, rt.alloc(), &plan, end, "")?;
    plan.style = &style[1..];
    ends(&rt, rt.alloc(), &plan, fine(b"a\n"), "")
}

#[test]
fn a_style_file_that_cannot_be_read_is_a_read_fault(rt: HostRuntime) -> Result<(), Fail> {
    for words in ["--style s", "--style t"] {
        let mut plan = worded(words, b"(a b)");
        plan.style_fails = 1;
        let end = stopped(Status::ReadFault, b"read fault\n");
        ends(&rt, rt.alloc(), &plan, end, words)?;
    }
    Ok(())
}
