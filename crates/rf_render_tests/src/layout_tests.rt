//! Layouts that were worked out by hand.

use crate::showing::{compared, parted};
use rf_doc::Graph;
use rf_documents::{choices, document, layout_of};
use rf_flat::{Core, simplify};
use std::alloc::Global;
use std::test::Fail;

// A row: a document in postfix form, the choices, and its layout, where `/` stands for a line feed, `none` for
// no core, and `no` for choices that don't fit. `nest` is by two columns, `charge` is 3, `wide` is two
// characters of four columns, and `same` puts the last node once more.
pub(crate) const ROWS: &str = "a ;; a
a line + b + ;; a/b
a line + b + flat ;; a b
a hard + b + ;; a/b
a hard + flat ;; none
( a line + b + align + ) + ;; (a/ b)
( a line + b + align + ) + flat ;; (a b)
a line b + nest + ;; a/  b
a line b + nest nest + ;; a/    b
a line b + nest reset + ;; a/  b
a line b + reset nest + ;; a/b
aa line b + nest align + ;; aa/    b
aa line b + align nest + ;; aa/  b
aa line b + nest reset align + ;; aa/  b
aa line b + reset align + ;; aa/b
a b | ; L ; a
a b | ; R ; b
a b | ;; no
a b | ; LL ; no
a hard | flat ; L ; a
a hard | flat ; R ; no
hard a | flat ; R ; a
hard a | flat ; L ; no
hard hard | flat ;; none
hard hard | ; R ; /
a b | c | ; LR ; b
a b | c | ; R ; c
a b c | | ; RL ; b
a b | c d | + ; RL ; bc
a b | same + ; LR ; ab
a hard + b | same + flat ; RR ; bb
hard flat x reset | ; R ; x
hard flat x reset | ; L ; no
a line + b + same flat + ;; a/ba b
a line charge + b + ;; a/b
hard charge a charge | charge flat ; R ; a
wide line b + align + ;; 漢字/    b
wide line b + align + flat ;; 漢字 b
a line b + nest charge align flat + ;; a b
line a | nest reset b + ; L ; /  b
line line flat | nest align b + ; R ;  b";

#[test]
fn documents_are_laid_out(rt: HostRuntime) -> Result<(), Fail> {
    for row in ROWS.split('\n') {
        check(rt.alloc(), row)?;
    }
    Ok(())
}

// Fails where the row's document isn't laid out as it says.
fn check(alloc: Global, row: &str) -> Result<(), Fail> {
    let (words, letters, wanted) = parted(row)?;
    let answer = answer(alloc, words, letters)?;
    compared(alloc, row, &answer, wanted)
}

// What a row's document is laid out as.
fn answer(alloc: Global, words: &str, letters: &str) -> Result<String, Fail> {
    let mut graph = Graph::new(alloc);
    let root = document(alloc, &mut graph, words)?;
    match simplify(alloc, &graph, root)? {
        None => Ok(String::from_str(alloc, " none")?),
        Some(core) => shown(alloc, &core, letters),
    }
}

// The layout by these choices, behind a space, with `/` for a line feed.
fn shown(alloc: Global, core: &Core, letters: &str) -> Result<String, Fail> {
    let choices = choices(alloc, letters)?;
    match layout_of(alloc, core, &choices)? {
        None => Ok(String::from_str(alloc, " no")?),
        Some(text) => {
            let mut line = String::from_str(alloc, " ")?;
            for c in text.chars() {
                line.push(if c == '\n' { '/' } else { c })?;
            }
            Ok(line)
        }
    }
}
