// Graphs that have nodes before the document of a file is made.
use crate::laying::{document_of, laid_out, slot_document_of};
use rf_doc::{DocNode, Graph, NodeId};
use std::test::Fail;

#[test]
fn older_nodes_stay(rt: HostRuntime) -> Result<(), Fail> {
    let mut graph = Graph::new(rt.alloc());
    let line = graph.newline()?;
    let hard = graph.hard()?;
    let nested = graph.nest(2, hard)?;
    let either = graph.choice(line, nested)?;
    let root = document_of(rt.alloc(), "(a b c)", &mut graph)?;
    assert!(rt; root.0 >= 4);
    assert_eq!(rt; told(&graph, line), Some(DocNode::Newline));
    assert_eq!(rt; told(&graph, hard), Some(DocNode::Hard));
    assert_eq!(rt; told(&graph, nested), Some(DocNode::Nest(2, hard)));
    assert_eq!(rt; told(&graph, either), Some(DocNode::Choice(line, nested)));
    let older = laid_out(rt.alloc(), &graph, either, "R")?;
    assert_eq!(rt; older.as_str(), "\n  ");
    let file = laid_out(rt.alloc(), &graph, root, "RL")?;
    assert_eq!(rt; file.as_str(), "(a b\n   c)\n");
    Ok(())
}

#[test]
fn two_files_stand_in_one_graph(rt: HostRuntime) -> Result<(), Fail> {
    let mut graph = Graph::new(rt.alloc());
    let first = document_of(rt.alloc(), "(a b c)", &mut graph)?;
    let second = document_of(rt.alloc(), "(d (e f) ; g\n h)", &mut graph)?;
    let dropped = laid_out(rt.alloc(), &graph, first, "L")?;
    assert_eq!(rt; dropped.as_str(), "(a\n b\n c)\n");
    let flat = laid_out(rt.alloc(), &graph, first, "RR")?;
    assert_eq!(rt; flat.as_str(), "(a b c)\n");
    let hanging = laid_out(rt.alloc(), &graph, second, "RLRR")?;
    assert_eq!(rt; hanging.as_str(), "(d (e f) ; g\n   h)\n");
    Ok(())
}

#[test]
fn a_slot_has_a_document_of_its_own(rt: HostRuntime) -> Result<(), Fail> {
    let mut graph = Graph::new(rt.alloc());
    let slot = slot_document_of(rt.alloc(), "(a b c) ; d\n(e)", &mut graph)?;
    let hanging = laid_out(rt.alloc(), &graph, slot, "RL")?;
    assert_eq!(rt; hanging.as_str(), "(a b\n   c) ; d");
    Ok(())
}

// The node, if the graph has it.
fn told(graph: &Graph, id: NodeId) -> Option<DocNode<'_>> {
    if id.0 < graph.len() {
        Some(graph.node(id))
    } else {
        None
    }
}
