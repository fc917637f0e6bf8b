//! What each call of a graph answers, told by `node`.

use rf_doc::{DocNode, Graph, NodeId};
use std::test::Fail;

#[test]
fn texts_count_characters(rt: HostRuntime) -> Result<(), Fail> {
    let mut graph = Graph::new(rt.alloc());
    let text = graph.text("λx → y")?;
    assert_eq!(rt; graph.node(text), DocNode::Text("λx → y", 6));
    Ok(())
}

#[test]
fn other_nodes_have_their_parts(rt: HostRuntime) -> Result<(), Fail> {
    let mut graph = Graph::new(rt.alloc());
    assert_eq!(rt; graph.len(), 0);
    let line = graph.newline()?;
    let aligned = graph.align(line)?;
    let both = graph.concat(aligned, line)?;
    assert_eq!(rt; graph.len(), 3);
    assert_eq!(rt; graph.node(line), DocNode::Newline);
    assert_eq!(rt; graph.node(aligned), DocNode::Align(line));
    assert_eq!(rt; graph.node(both), DocNode::Concat(aligned, line));
    Ok(())
}

#[test]
fn a_text_has_the_columns_it_is_given(rt: HostRuntime) -> Result<(), Fail> {
    let mut graph = Graph::new(rt.alloc());
    let wide = graph.sized("漢字", 4)?;
    let none = graph.sized("ab", 0)?;
    assert_eq!(rt; graph.node(wide), DocNode::Text("漢字", 4));
    assert_eq!(rt; graph.node(none), DocNode::Text("ab", 0));
    Ok(())
}

#[test]
fn nodes_of_one_part(rt: HostRuntime) -> Result<(), Fail> {
    let mut graph = Graph::new(rt.alloc());
    let hard = graph.hard()?;
    let nested = graph.nest(1000, hard)?;
    let reset = graph.reset(nested)?;
    let flat = graph.flatten(reset)?;
    let charged = graph.charge(3, flat)?;
    assert_eq!(rt; graph.node(hard), DocNode::Hard);
    assert_eq!(rt; graph.node(nested), DocNode::Nest(1000, hard));
    assert_eq!(rt; graph.node(reset), DocNode::Reset(nested));
    assert_eq!(rt; graph.node(flat), DocNode::Flatten(reset));
    assert_eq!(rt; graph.node(charged), DocNode::Charge(3, flat));
    Ok(())
}

#[test]
fn a_choice_has_two_sides(rt: HostRuntime) -> Result<(), Fail> {
    let mut graph = Graph::new(rt.alloc());
    let hard = graph.hard()?;
    let text = graph.text("a")?;
    let either = graph.choice(hard, text)?;
    let again = graph.choice(either, either)?;
    assert_eq!(rt; graph.node(either), DocNode::Choice(hard, text));
    assert_eq!(rt; graph.node(again), DocNode::Choice(either, either));
    Ok(())
}

#[test]
fn no_part_and_one_part(rt: HostRuntime) -> Result<(), Fail> {
    let mut graph = Graph::new(rt.alloc());
    let line = graph.newline()?;
    let none = graph.seq(&[])?;
    assert_eq!(rt; graph.node(none), DocNode::Text("", 0));
    let one = graph.seq(&[line])?;
    assert_eq!(rt; one, line);
    Ok(())
}

#[test]
fn two_and_three_parts(rt: HostRuntime) -> Result<(), Fail> {
    let mut graph = Graph::new(rt.alloc());
    let a = graph.newline()?;
    let b = graph.align(a)?;
    let two = graph.seq(&[a, b])?;
    assert_eq!(rt; graph.node(two), DocNode::Concat(a, b));
    let three = graph.seq(&[a, b, a])?;
    assert_eq!(rt; graph.len(), 5);
    assert_eq!(rt; graph.node(three), DocNode::Concat(NodeId(3), a));
    Ok(())
}

#[test]
fn five_parts(rt: HostRuntime) -> Result<(), Fail> {
    let mut graph = Graph::new(rt.alloc());
    let a = graph.newline()?;
    let b = graph.align(a)?;
    let five = graph.seq(&[a, b, a, b, b])?;
    assert_eq!(rt; graph.len(), 6);
    assert_eq!(rt; graph.node(five), DocNode::Concat(NodeId(3), NodeId(4)));
    assert_eq!(rt; graph.node(NodeId(3)), DocNode::Concat(NodeId(2), a));
    assert_eq!(rt; graph.node(NodeId(2)), DocNode::Concat(a, b));
    assert_eq!(rt; graph.node(NodeId(4)), DocNode::Concat(b, b));
    Ok(())
}
