// How a table's rows are tried.
use crate::laying::{document_of, laid_out};
use rf_doc::Graph;
use std::alloc::{AllocError, Global};
use std::process::Abort;
use std::test::Fail;

#[test]
fn each_row_has_its_layout(rt: HostRuntime) -> Result<(), Fail> {
    for rows in [
        crate::sides::ROWS,
        crate::unfit::ROWS,
        crate::nested::ROWS,
        crate::keys::ROWS,
        crate::prefixes::ROWS,
        crate::quoting::ROWS,
        crate::comments::ROWS,
        crate::lines::ROWS,
        crate::shapes::ROWS,
        crate::clauses::ROWS,
        crate::places::ROWS,
        crate::mixtures::ROWS,
    ] {
        check(&rt, rt.alloc(), rows)?;
    }
    Ok(())
}

// Lays the source of each row out by the row's choices, and compares that with the row's layout.
fn check(rt: &impl Abort, alloc: Global, rows: &str) -> Result<(), Fail> {
    for row in rows.split('\n') {
        let (shown, rest) = row.split_once('⇒').ok_or("a row without choices")?;
        let (letters, wanted) = rest.split_once('⇒').ok_or("a row without a layout")?;
        let source = text_of(alloc, shown)?;
        let wanted = text_of(alloc, wanted)?;
        let mut graph = Graph::new(alloc);
        let root = document_of(alloc, source.as_str(), &mut graph)?;
        let got = laid_out(alloc, &graph, root, letters)?;
        assert_eq!(rt; got.as_str(), wanted.as_str(), "{row}");
    }
    Ok(())
}

// The text that the signs stand for.
fn text_of(alloc: Global, shown: &str) -> Result<String, AllocError> {
    let mut text = String::new(alloc);
    for sign in shown.chars() {
        text.push(meant(sign))?;
    }
    Ok(text)
}

// What the sign stands for.
fn meant(sign: char) -> char {
    match sign {
        '⏎' => '\n',
        '␍' => '\r',
        other => other,
    }
}
