//! What is told of nodes of each kind: no clause says that anything is known.

use rf_doc::Graph;
use rf_frontier::{HowId, Hows};
use rf_outline::{Line, outline};
use std::test::Fail;

#[test]
fn texts_in_a_row(rt: HostRuntime) -> Result<(), Fail> {
    let mut graph = Graph::new(rt.alloc());
    let text = graph.text("ab")?;
    let line = graph.newline()?;
    let both = graph.concat(text, line)?;
    let charged = graph.charge(1, both)?;
    let mut hows = Hows::with_leaf(rt.alloc())?;
    let mut list = Vec::new(rt.alloc());
    outline(&graph, &mut hows, &mut list)?;
    assert_eq!(rt; list[text.0].loose.line, Line::Text(2, HowId(0)));
    assert_eq!(rt; list[line.0].loose.line, Line::Never);
    assert_eq!(rt; list[line.0].loose.begins, true);
    assert_eq!(rt; list[both.0].loose.line, Line::Never);
    assert_eq!(rt; list[both.0].flat.line, Line::Text(3, HowId(0)));
    assert_eq!(rt; list[charged.0].flat.line, Line::Never);
    Ok(())
}

#[test]
fn sides_of_a_choice(rt: HostRuntime) -> Result<(), Fail> {
    let mut graph = Graph::new(rt.alloc());
    let text = graph.text("a")?;
    let line = graph.newline()?;
    let either = graph.choice(line, text)?;
    let again = graph.choice(either, text)?;
    let longer = graph.concat(again, text)?;
    let unsure = graph.choice(longer, text)?;
    let mut hows = Hows::with_leaf(rt.alloc())?;
    let mut list = Vec::new(rt.alloc());
    outline(&graph, &mut hows, &mut list)?;
    assert_eq!(rt; list[either.0].loose.line, Line::Long(1, HowId(1)));
    assert_eq!(rt; list[either.0].flat.line, Line::Text(1, HowId(2)));
    assert_eq!(rt; list[again.0].loose.line, Line::Long(1, HowId(3)));
    assert_eq!(rt; list[longer.0].loose.line, Line::Long(2, HowId(3)));
    assert_eq!(rt; list[unsure.0].loose.line, Line::Unsure);
    assert_eq!(rt; list[either.0].loose.begins, false);
    Ok(())
}

#[test]
fn without_a_layout(rt: HostRuntime) -> Result<(), Fail> {
    let mut graph = Graph::new(rt.alloc());
    let text = graph.text("a")?;
    let hard = graph.hard()?;
    let behind = graph.concat(text, hard)?;
    let either = graph.choice(hard, behind)?;
    let other = graph.choice(hard, text)?;
    let mut hows = Hows::with_leaf(rt.alloc())?;
    let mut list = Vec::new(rt.alloc());
    outline(&graph, &mut hows, &mut list)?;
    assert_eq!(rt; list[hard.0].loose.line, Line::Never);
    assert_eq!(rt; list[behind.0].flat.line, Line::Nothing);
    assert_eq!(rt; list[either.0].flat.line, Line::Nothing);
    assert_eq!(rt; list[other.0].flat.line, Line::Long(1, HowId(2)));
    Ok(())
}
