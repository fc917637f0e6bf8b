//! Choices that were worked out by hand.

use crate::searching::searched;
use rf_cost::Squares;
use rf_doc::Graph;
use rf_documents::document;
use std::alloc::Global;
use std::test::Fail;

// A row: a document in postfix form, the page width of `Squares`, the limit, and the choices that are found, which are
// `past` the limit where all layouts are.
//
// First a list on one line, `((f x))`, or over two, with a closer behind it, which ends at column 7. Then one with two
// closers, `(g y)))`; one whose second line is aligned, `xx(f x))`; and lists in a list, `((f x) (g y))`.
//
// Last two sides that share an aligned part at column 2, `aaaa` or `b` for a charge: the text behind it on one side is
// longer, or a break stands there, so that the second side asks for it with another cut. A charge of 0 keeps its length
// on one line from being known, so that it is gone through.
const ROWS: &str = "( (f line x) + + same flat swap | ) + + ; 80 ; 80 ; L
( (f line x) + + same flat swap | ) + + ; 80 ; 7 ; L
( (f line x) + + same flat swap | ) + + ; 80 ; 6 ; R
( (f line x) + + same flat swap | ) + + ; 80 ; 5 ; R
( (f line x) + + same flat swap | ) + + ; 80 ; 3 ; R
( (f line x) + + same flat swap | ) + + ; 80 ; 2 ; past L
( (f line x) + + same flat swap | ) + + ; 7 ; 80 ; L
( (f line x) + + same flat swap | ) + + ; 6 ; 80 ; R
( (f line x) + + same flat swap | ) + + ; 5 ; 80 ; R
( (f line x) + + same flat swap | ) + + ; 2 ; 80 ; R
( (f line x) + + same flat swap | ) + + ; 7 ; 7 ; L
( (f line x) + + same flat swap | ) + + ; 6 ; 7 ; R
( (f line x) + + same flat swap | ) + + ; 7 ; 6 ; R
(g line y) + + same flat swap | ) ) + + ; 80 ; 7 ; L
(g line y) + + same flat swap | ) ) + + ; 80 ; 6 ; R
(g line y) + + same flat swap | ) ) + + ; 80 ; 4 ; R
(g line y) + + same flat swap | ) ) + + ; 80 ; 3 ; past R
(g line y) + + same flat swap | ) ) + + ; 7 ; 80 ; L
(g line y) + + same flat swap | ) ) + + ; 6 ; 80 ; R
(g line y) + + same flat swap | ) ) + + ; 3 ; 80 ; R
xx (f line x) + align + same flat swap | ) + + ; 80 ; 8 ; L
xx (f line x) + align + same flat swap | ) + + ; 80 ; 7 ; R
xx (f line x) + align + same flat swap | ) + + ; 80 ; 6 ; past R
xx (f line x) + align + same flat swap | ) + + ; 8 ; 80 ; L
xx (f line x) + align + same flat swap | ) + + ; 7 ; 80 ; R
xx (f line x) + align + same flat swap | ) + + ; 5 ; 80 ; R
xx (f line x) + align + same flat swap | ) + + ; 8 ; 8 ; L
xx (f line x) + align + same flat swap | ) + + ; 6 ; 7 ; R
( (f line x) + + same flat swap | line (g line y) + + same flat swap | ) + + + + same flat swap | ; 13 ; 80 ; LLL
( (f line x) + + same flat swap | line (g line y) + + same flat swap | ) + + + + same flat swap | ; 12 ; 80 ; RLL
( (f line x) + + same flat swap | line (g line y) + + same flat swap | ) + + + + same flat swap | ; 6 ; 80 ; RLL
( (f line x) + + same flat swap | line (g line y) + + same flat swap | ) + + + + same flat swap | ; 5 ; 80 ; RRR
( (f line x) + + same flat swap | line (g line y) + + same flat swap | ) + + + + same flat swap | ; 80 ; 13 ; LLL
( (f line x) + + same flat swap | line (g line y) + + same flat swap | ) + + + + same flat swap | ; 80 ; 12 ; RLL
( (f line x) + + same flat swap | line (g line y) + + same flat swap | ) + + + + same flat swap | ; 80 ; 6 ; RLL
( (f line x) + + same flat swap | line (g line y) + + same flat swap | ) + + + + same flat swap | ; 80 ; 5 ; RRR
( (f line x) + + same flat swap | line (g line y) + + same flat swap | ) + + + + same flat swap | ; 80 ; 2 ; past LLL
xx aaaa b charge | free align same abc + swap x + | + ; 7 ; 80 ; RL
xx aaaa b charge | free align same abc + swap x + | + ; 7 ; 7 ; RL
xx aaaa b charge | free align same abc + swap x + | + ; 7 ; 6 ; RR
xx aaaa b charge | free align same abc + swap x + | + ; 9 ; 80 ; RL
xx aaaa b charge | free align same x + swap abc + | + ; 7 ; 80 ; LL
xx aaaa b charge | free align same x + swap abc + | + ; 7 ; 6 ; LR
xx aaaa b charge | free align same abc + swap x + charge charge | + ; 7 ; 80 ; LR
xx aaaa b charge | free align same abc + swap x + charge charge | + ; 7 ; 6 ; LR
xx aaaa b charge | free align same abc + swap x + charge charge | + ; 7 ; 5 ; RR
xx aaaa b charge | free align same abc + swap x + charge charge | + ; 7 ; 3 ; past LR
xx aaaa b charge | free align same abc + swap x + charge charge | + ; 9 ; 80 ; LL
xx aaaa b charge | free align same x + charge charge swap abc + | + ; 7 ; 80 ; RR
xx aaaa b charge | free align same x + charge charge swap abc + | + ; 7 ; 8 ; RR
xx aaaa b charge | free align same x + charge charge swap abc + | + ; 7 ; 6 ; RR
xx aaaa b charge | free align same x + charge charge swap abc + | + ; 7 ; 5 ; LR
xx aaaa b charge | free align same x + charge charge swap abc + | + ; 9 ; 80 ; RL
xx aaaa line b + | free align same abc + swap x + charge charge | + ; 7 ; 80 ; LR
xx aaaa line b + | free align same x + charge charge swap abc + | + ; 7 ; 80 ; RR
xx aaaa b charge | free align same line z + + charge swap abc + | + ; 7 ; 80 ; RR
xx aaaa b charge | free align same line z + + charge swap abc + | + ; 7 ; 6 ; RR
xx aaaa b charge | free align same line z + + charge swap abc + | + ; 7 ; 5 ; LR
xx aaaa b charge | free align same abc + swap line z + + charge | + ; 7 ; 80 ; LR
xx aaaa b charge | free align same abc + swap line z + + charge | + ; 7 ; 5 ; RR
aaaa b charge | free align same xx swap + abc + swap yy swap + x + charge charge | ; 7 ; 80 ; LR
aaaa b charge | free align same xx swap + x + charge charge swap yy swap + abc + | ; 7 ; 80 ; RR";

#[test]
fn documents_are_searched(rt: HostRuntime) -> Result<(), Fail> {
    for row in ROWS.split('\n') {
        check_row(rt.alloc(), row)?;
    }
    Ok(())
}

// Fails where what is found of the row's document isn't what it says.
fn check_row(alloc: Global, row: &str) -> Result<(), Fail> {
    let mut fields = row.split(';');
    let (Some(words), Some(page), Some(most), Some(wanted)) = (
        fields.next(),
        fields.next(),
        fields.next(),
        fields.next(),
    ) else {
        return Err(Fail::new("a row without all its fields"));
    };
    let (Ok(width), Ok(limit)) = (page.trim().parse::<u32>(), most.trim().parse::<u32>()) else {
        return Err(Fail::new("a width that is no number"));
    };
    check(alloc, words, width, limit, wanted.trim())
}

// Fails where other choices are found.
fn check(alloc: Global, words: &str, width: u32, limit: u32, wanted: &str) -> Result<(), Fail> {
    if limit > 400 {
        return Err(Fail::new("a limit past the greatest one"));
    }
    let mut graph = Graph::new(alloc);
    let root = document(alloc, &mut graph, words)?;
    let found = searched(alloc, &graph, root, &Squares { width }, limit)?;
    if found.as_str() != wanted {
        let fault = format!(in alloc;
            "{words} at {width} within {limit} gives {found}, not {wanted}"
        )?;
        return Err(Fail::new(fault));
    }
    Ok(())
}
