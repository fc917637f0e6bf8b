//! What a core has, and which choices fit it.

use rf_doc::Graph;
use rf_documents::{right_chain, text};
use rf_flat::{Core, CoreNode, Dir, fits, simplify};
use std::test::Fail;

#[test]
fn each_node_that_is_reached_stands_once(rt: HostRuntime) -> Result<(), Fail> {
    let mut graph = Graph::new(rt.alloc());
    let a = text(&mut graph, "a")?;
    let bb = text(&mut graph, "bb")?;
    let either = graph.choice(a, bb)?;
    let empty = text(&mut graph, "")?;
    let all = right_chain(&mut graph, either, empty, 60)?;
    match simplify(rt.alloc(), &graph, all)? {
        None => Err(Fail::new("no core")),
        Some(core) => {
            assert_eq!(rt; core.len(), 64);
            assert_eq!(rt; core.root(), 63);
            Ok(())
        }
    }
}

#[test]
fn a_flat_hard_newline_has_no_core(rt: HostRuntime) -> Result<(), Fail> {
    let mut graph = Graph::new(rt.alloc());
    let hard = graph.hard()?;
    let flat = graph.flatten(hard)?;
    assert!(rt; simplify(rt.alloc(), &graph, flat)?.is_none());
    Ok(())
}

#[test]
fn what_no_layout_has_is_out_of_reach(rt: HostRuntime) -> Result<(), Fail> {
    let mut graph = Graph::new(rt.alloc());
    let hard = graph.hard()?;
    let flat = graph.flatten(hard)?;
    let a = text(&mut graph, "a")?;
    let never = graph.concat(a, flat)?;
    let line = graph.newline()?;
    let either = graph.choice(never, line)?;
    match simplify(rt.alloc(), &graph, either)? {
        None => Err(Fail::new("no core")),
        Some(core) => {
            assert_eq!(rt; core.len(), 2);
            assert_eq!(rt; kind(&core, 0), Some(CoreNode::Newline));
            assert_eq!(rt; kind(&core, 1), Some(CoreNode::Only(Dir::Right, 0)));
            Ok(())
        }
    }
}

#[test]
fn a_shared_node_stands_for_both_ways(rt: HostRuntime) -> Result<(), Fail> {
    let mut graph = Graph::new(rt.alloc());
    let line = graph.newline()?;
    let nested = graph.nest(2, line)?;
    let flat = graph.flatten(nested)?;
    let both = graph.concat(nested, flat)?;
    match simplify(rt.alloc(), &graph, both)? {
        None => Err(Fail::new("no core")),
        Some(core) => {
            assert_eq!(rt; core.len(), 5);
            assert_eq!(rt; kind(&core, 0), Some(CoreNode::Newline));
            assert_eq!(rt; kind(&core, 1), Some(CoreNode::Text(" ", 1)));
            assert_eq!(rt; kind(&core, 2), Some(CoreNode::Nest(2, 0)));
            assert_eq!(rt; kind(&core, 3), Some(CoreNode::Nest(2, 1)));
            assert_eq!(rt; kind(&core, 4), Some(CoreNode::Concat(2, 3)));
            Ok(())
        }
    }
}

#[test]
fn choices_that_fit(rt: HostRuntime) -> Result<(), Fail> {
    let mut graph = Graph::new(rt.alloc());
    let hard = graph.hard()?;
    let flat = graph.flatten(hard)?;
    let x = text(&mut graph, "x")?;
    let plain = graph.reset(x)?;
    let either = graph.choice(flat, plain)?;
    match simplify(rt.alloc(), &graph, either)? {
        None => Err(Fail::new("no core")),
        Some(core) => {
            assert!(rt; fits(rt.alloc(), &core, &[Dir::Right])?);
            assert!(rt; !fits(rt.alloc(), &core, &[Dir::Left])?);
            assert!(rt; !fits(rt.alloc(), &core, &[])?);
            assert!(rt; !fits(rt.alloc(), &core, &[Dir::Right, Dir::Right])?);
            Ok(())
        }
    }
}

#[test]
fn directions_are_letters(rt: HostRuntime) -> Result<(), Fail> {
    let left = Dir::Left;
    let right = Dir::Right;
    let text = format!(in rt.alloc(); "{left}{right}{left}")?;
    assert_eq!(rt; text.as_str(), "LRL");
    Ok(())
}

// Node `n`, if the core has it.
fn kind<'g>(core: &Core<'g>, n: usize) -> Option<CoreNode<'g>> {
    if n < core.len() {
        Some(*core.node(n))
    } else {
        None
    }
}
