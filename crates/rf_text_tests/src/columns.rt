// How many columns texts take up.
use crate::signs::text_of;
use rf_base_grammar::SOURCE_LIMIT;
use rf_text::{Columns, length, line_length, one_line};
use std::alloc::{AllocError, Global};
use std::test::Fail;

// A text, and its columns by characters and as they are shown.
const ROWS: &str = "⇒0 0
a⇒1 1
(f 漢字 b)⇒8 10
(define (area circle) 314)⇒26 26
λ⇒1 1
é⇒1 1
e\u{301}⇒2 1
\u{301}⇒1 0
⏎⇒1 1
⇥␀⇒2 2
ｱ⇒1 1
ア⇒1 2
한국어⇒3 6
！⇒1 2
\u{200b}⇒1 0
\u{17d8}⇒1 2
😀⇒1 2
😀😀😀⇒3 6
👩\u{200d}👩⇒3 4
🇩🇪⇒2 2
\u{ad}⇒1 0
\u{7f}⇒1 1
\u{85}⇒1 1";

#[test]
fn each_text_has_its_columns(rt: HostRuntime) -> Result<(), Fail> {
    let alloc = rt.alloc();
    for row in ROWS.split('\n') {
        let (shown, wanted) = row.split_once('⇒').ok_or("a row without an answer")?;
        let text = text_of(alloc, shown)?;
        let got = answer(alloc, text.as_str())?;
        assert_eq!(&rt; got.as_str(), wanted, "{shown}");
    }
    Ok(())
}

// Where a text stands on one line, its columns are told with that.
#[test]
fn each_line_has_its_columns(rt: HostRuntime) -> Result<(), Fail> {
    let alloc = rt.alloc();
    for row in ROWS.split('\n') {
        let (shown, _) = row.split_once('⇒').ok_or("a row without an answer")?;
        let text = text_of(alloc, shown)?;
        for columns in [Columns::Characters, Columns::Display] {
            let got = told(text.as_str(), columns);
            assert_eq!(&rt; got, wanted(text.as_str(), columns), "{shown}");
        }
    }
    Ok(())
}

// The columns of the text, told with whether it stands on one line.
fn told(text: &str, columns: Columns) -> Option<u32> {
    if text.len() > SOURCE_LIMIT {
        return None;
    }
    line_length(text, columns)
}

// The same by two calls.
fn wanted(text: &str, columns: Columns) -> Option<u32> {
    if text.len() > SOURCE_LIMIT || !one_line(text) {
        return None;
    }
    Some(length(text, columns))
}

// The columns of the text, counted in both ways.
fn answer(alloc: Global, text: &str) -> Result<String, AllocError> {
    if text.len() > SOURCE_LIMIT {
        return String::from_str(alloc, "too long");
    }
    let characters = length(text, Columns::Characters);
    let display = length(text, Columns::Display);
    format!(in alloc; "{characters} {display}")
}
