// Which blank lines are kept.
use crate::table::source_of;
use rf_base_grammar::SOURCE_LIMIT;
use rf_lexer::lex;
use rf_tree::settle;
use std::alloc::{AllocError, Global};
use std::test::Fail;

// A row a line: a source, and the blank lines before each of its items where at most none, one and nine are kept.
const ROWS: &str = r##"⇒||
a⇒0|0|0
⏎⏎⏎a⇒0|0|0
a⏎b⇒00|00|00
a⏎⏎b⇒00|01|01
a⏎⏎⏎⏎b⇒00|01|03
a⏎⏎⏎⏎⏎⏎⏎⏎⏎⏎⏎⏎b⇒00|01|09
(⏎⏎a⏎⏎⏎b⏎⏎)⇒0000|0010|0020
a⏎⏎(⏎⏎)⏎⏎b⇒0000|0101|0101
a⏎⏎'⏎⏎b⇒000|010|010
a⏎⏎#;⏎⏎b⏎⏎⏎c⇒0000|0101|0102
⏎⏎;c⏎⏎a⇒00|01|01
(⏎⏎;c⏎⏎)⇒000|000|000
a⏎⏎#||#⏎⏎⏎;c⏎⏎"b"⇒0000|0111|0121
a⏎⏎]⏎⏎b⇒000|001|001"##;

#[test]
fn each_row_has_its_answer(rt: HostRuntime) -> Result<(), Fail> {
    let alloc = rt.alloc();
    for row in ROWS.split('\n') {
        let (shown, wanted) = row.split_once('⇒').ok_or("a row without an answer")?;
        let source = source_of(alloc, shown)?;
        let got = answer(alloc, source.as_str())?;
        assert_eq!(&rt; got.as_str(), wanted, "{shown}");
    }
    Ok(())
}

// The blank lines where at most none, one and nine are kept.
fn answer(alloc: Global, source: &str) -> Result<String, AllocError> {
    let none = kept(alloc, source, 0)?;
    let one = kept(alloc, source, 1)?;
    let nine = kept(alloc, source, 9)?;
    format!(in alloc; "{none}|{one}|{nine}")
}

// The blank lines before each item where at most so many are kept.
fn kept(alloc: Global, source: &str, max: u32) -> Result<String, AllocError> {
    let mut text = String::new(alloc);
    if source.len() > SOURCE_LIMIT {
        return Ok(text);
    }
    if let Ok(items) = lex(alloc, source) {
        let mut items = items;
        settle(&mut items, max);
        for item in &items {
            let one = format!(in alloc; "{}", item.blanks)?;
            text.push_str(one.as_str())?;
        }
    }
    Ok(text)
}
