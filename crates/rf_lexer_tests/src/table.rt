// How a table's rows are tried.
use rf_base_grammar::{Bracket, Item, Kind, SOURCE_LIMIT};
use rf_lexer::{Before, accept_behind, lex};
use std::alloc::{AllocError, Global};
use std::process::Abort;
use std::test::Fail;

#[test]
fn each_row_has_its_answer(rt: HostRuntime) -> Result<(), Fail> {
    for rows in [
        crate::atoms::ROWS,
        crate::brackets::ROWS,
        crate::comments::ROWS,
        crate::gaps::ROWS,
        crate::languages::ROWS,
        crate::prefixes::ROWS,
        crate::strings::ROWS,
    ] {
        check(&rt, rt.alloc(), rows)?;
    }
    Ok(())
}

// Lexes the source of each row, and compares what it tells with the row's answer.
fn check(rt: &impl Abort, alloc: Global, rows: &str) -> Result<(), Fail> {
    for row in rows.split('\n') {
        let (shown, wanted) = row.split_once('⇒').ok_or("a row without an answer")?;
        let source = source_of(alloc, shown)?;
        let got = answer(alloc, source.as_str())?;
        assert_eq!(rt; got.as_str(), wanted, "{shown}");
    }
    Ok(())
}

// The source that the signs stand for.
fn source_of(alloc: Global, shown: &str) -> Result<String, AllocError> {
    let mut source = String::new(alloc);
    for c in shown.chars() {
        source.push(meant(c))?;
    }
    Ok(source)
}

// The character that the sign stands for.
fn meant(c: char) -> char {
    match c {
        '⏎' => '\n',
        '␍' => '\r',
        '⇥' => '\t',
        '°' => '\u{a0}',
        '¹' => '\u{85}',
        '²' => '\u{2028}',
        '³' => '\u{2029}',
        '⁰' => '\u{feff}',
        _ => c,
    }
}

// What the lexer tells of the source, and tells likewise where it keeps no items.
fn answer(alloc: Global, source: &str) -> Result<String, AllocError> {
    if source.len() > SOURCE_LIMIT {
        return String::from_str(alloc, "too long");
    }
    let fault = accept_behind(source.len(), source, Before::nothing()).err();
    match lex(alloc, source) {
        Ok(items) => {
            if fault.is_none() {
                listed(alloc, items.as_slice())
            } else {
                String::from_str(alloc, "refused where none are kept")
            }
        }
        Err(kept) => {
            if fault == Some(kept) {
                format!(in alloc; "{kept}")
            } else {
                String::from_str(alloc, "told otherwise where none are kept")
            }
        }
    }
}

// The items, one behind another.
fn listed(alloc: Global, items: &[Item]) -> Result<String, AllocError> {
    let mut text = String::new(alloc);
    for item in items {
        if !text.is_empty() {
            text.push_str(", ")?;
        }
        let one = told(alloc, item)?;
        text.push_str(one.as_str())?;
    }
    Ok(text)
}

// The item: its kind, its first byte and the one past its last, its blank lines where it has some, and whether it
// begins its line.
fn told(alloc: Global, item: &Item) -> Result<String, AllocError> {
    let kind = word(item.kind);
    let mut text = format!(in alloc; "{kind} {}-{}", item.start, item.end)?;
    if item.blanks > 0 {
        let blanks = format!(in alloc; " blanks {}", item.blanks)?;
        text.push_str(blanks.as_str())?;
    }
    if item.own_line {
        text.push_str(" own")?;
    }
    Ok(text)
}

// The kind's word.
fn word(kind: Kind) -> &'static str {
    match kind {
        Kind::Opener(Bracket::Round) => "(",
        Kind::Opener(Bracket::Square) => "[",
        Kind::Opener(Bracket::Curly) => "{",
        Kind::Closer(Bracket::Round) => ")",
        Kind::Closer(Bracket::Square) => "]",
        Kind::Closer(Bracket::Curly) => "}",
        Kind::Prefix => "prefix",
        Kind::Skip => "skip",
        Kind::Dot => "dot",
        Kind::Atom => "atom",
        Kind::Str => "string",
        Kind::Here => "here",
        Kind::Block => "block",
        Kind::Line => "line",
        Kind::Lang => "lang",
    }
}
