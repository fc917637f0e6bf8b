//! Resolutions that were worked out by hand.

use crate::showing::at_limit;
use rf_doc::Graph;
use rf_documents::{document, text};
use std::alloc::Global;
use std::test::Fail;

// A row: a document in postfix form, the computation width, and its choices, its cost at page width 80 by `Squares`,
// whether it is within, its last column and its layout, where `/` stands for a line feed.
const ROWS: &str = "empty ; 80 ; 0 true 0 []
a charge bb | ; 80 ;R 0 true 2 [bb]
a free bb | ; 80 ;L 0 true 1 [a]
wide line c + align + ; 80 ; 1 true 5 [漢字/    c]
a line b + | ; 80 ;L 0 true 1 [a]
line line + a line + | ; 80 ;R 1 true 0 [a/]
a a | ; 80 ;L 0 true 1 [a]
hard flat x reset | ; 80 ;R 0 true 1 [x]
abc a | ; 1 ;R 0 true 1 [a]
abc a | same + ; 1 ;RL 0 false 4 [aabc]
abc bcd | ; 1 ;L 0 false 3 [abc]
abc ; 2 ; 0 false 3 [abc]
abc ; 3 ; 0 true 3 [abc]
line a + same flat swap | ; 1 ;R 1 true 1 [/a]
line a + nest ; 2 ; 1 false 3 [/  a]
line a + nest ; 3 ; 1 true 3 [/  a]
line a + nest ; 400 ; 1 true 3 [/  a]";

#[test]
fn documents_are_resolved(rt: HostRuntime) -> Result<(), Fail> {
    for row in ROWS.split('\n') {
        check(rt.alloc(), row)?;
    }
    Ok(())
}

// Fails where the row's document isn't resolved as it says.
fn check(alloc: Global, row: &str) -> Result<(), Fail> {
    let Some((words, rest)) = row.split_once(';') else {
        return Err(Fail::new("a row without a width"));
    };
    let Some((width, wanted)) = rest.split_once(';') else {
        return Err(Fail::new("a row without a resolution"));
    };
    let Ok(limit) = width.trim().parse::<u32>() else {
        return Err(Fail::new("a width that is no number"));
    };
    if limit < 1 || limit > 400 {
        return Err(Fail::new("a width that is no computation width"));
    }
    let mut graph = Graph::new(alloc);
    let root = document(alloc, &mut graph, words)?;
    let answer = at_limit(alloc, &graph, root, limit)?;
    if answer.as_str() != wanted {
        return Err(Fail::new(format!(in alloc; "{row} gives {answer}")?));
    }
    Ok(())
}

#[test]
fn a_text_as_long_as_the_greatest_width(rt: HostRuntime) -> Result<(), Fail> {
    let alloc = rt.alloc();
    let mut long = String::new(alloc);
    for _i in 0..400 {
        long.push('a')?;
    }
    let mut graph = Graph::new(alloc);
    let most = text(&mut graph, long.as_str())?;
    let wanted = format!(in alloc; " 112589990684262400 true 400 [{long}]")?;
    assert_eq!(rt; at_limit(alloc, &graph, most, 400)?, wanted);
    let one = text(&mut graph, "b")?;
    let more = graph.concat(most, one)?;
    let wanted = format!(in alloc; " 113294777637666816 false 401 [{long}b]")?;
    assert_eq!(rt; at_limit(alloc, &graph, more, 400)?, wanted);
    Ok(())
}
