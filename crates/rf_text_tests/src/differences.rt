// In which line two texts differ first.
use crate::signs::text_of;
use rf_text::first_difference;
use std::alloc::{AllocError, Global};
use std::test::Fail;

// Two texts, and the number of the first line that differs or that one of them lacks.
const ROWS: &str = "|⇒none
a|a⇒none
a⏎|a⏎⇒none
a⏎⏎b|a⏎⏎b⇒none
a|b⇒1
a|⇒1
|a⇒1
ab|a⇒1
a|ab⇒1
a|a⏎⇒2
a⏎|a⇒2
⏎|⇒2
|⏎⇒2
a⏎b|a⏎c⇒2
a⏎b|ab⇒1
ab|a⏎b⇒1
a⏎b|a⏎b⏎⇒3
a⏎b⏎|a⏎b⇒3
a⏎b⏎c⏎d|a⏎b⏎c⏎e⇒4
a⏎⏎⏎|a⏎⏎⇒4
a⏎⏎|a⏎b⇒2
é|è⇒1
a⏎b⏎c|x⏎b⏎c⇒1
a⏎ b|a⏎b⇒2";

#[test]
fn each_pair_has_its_line(rt: HostRuntime) -> Result<(), Fail> {
    let alloc = rt.alloc();
    for row in ROWS.split('\n') {
        let (shown, wanted) = row.split_once('⇒').ok_or("a row without an answer")?;
        let (first, second) = shown.split_once('|').ok_or("a row without two texts")?;
        let (first, second) = (text_of(alloc, first)?, text_of(alloc, second)?);
        let got = answer(alloc, first.as_str(), second.as_str())?;
        assert_eq!(&rt; got.as_str(), wanted, "{shown}");
    }
    Ok(())
}

// The number of the line, or `none`.
fn answer(alloc: Global, first: &str, second: &str) -> Result<String, AllocError> {
    if first.len() > 1_000 || second.len() > 1_000 {
        return String::from_str(alloc, "too long");
    }
    match first_difference(first.as_bytes(), second.as_bytes()) {
        None => String::from_str(alloc, "none"),
        Some(line) => format!(in alloc; "{line}"),
    }
}
