//! Documents of a million nodes below one another.

ghost use Rattle.std.specs.Prelude.{◌<◌, length};

use crate::showing::{is_too_long, measured};
use rf_cost::{Factory, Linear, Lines};
use rf_doc::{Graph, NodeId};
use rf_documents::{doubled, layout_of, left_chain, nests, right_chain, text};
use rf_flat::{Dir, simplify};
use rf_measure::Total;
use std::alloc::Global;
use std::test::Fail;

#[test]
fn a_text_under_nests(rt: HostRuntime) -> Result<(), Fail> {
    let mut graph = Graph::new(rt.alloc());
    let a = text(&mut graph, "a")?;
    let all = nests(&mut graph, a, 1_000_000)?;
    assert_eq!(rt; laid(rt.alloc(), &graph, all)?.as_str(), "a");
    Ok(())
}

#[test]
fn a_chain_to_the_left(rt: HostRuntime) -> Result<(), Fail> {
    let mut graph = Graph::new(rt.alloc());
    let none = text(&mut graph, "")?;
    let all = left_chain(&mut graph, none, 1_000_000)?;
    assert_eq!(rt; laid(rt.alloc(), &graph, all)?.as_str(), "");
    Ok(())
}

#[test]
fn a_chain_to_the_right(rt: HostRuntime) -> Result<(), Fail> {
    let mut graph = Graph::new(rt.alloc());
    let none = text(&mut graph, "")?;
    let all = right_chain(&mut graph, none, none, 1_000_000)?;
    assert_eq!(rt; laid(rt.alloc(), &graph, all)?.as_str(), "");
    Ok(())
}

#[test]
fn a_text_doubled_27_times_is_too_long(rt: HostRuntime) -> Result<(), Fail> {
    let mut graph = Graph::new(rt.alloc());
    let a = text(&mut graph, "a")?;
    let all = doubled(&mut graph, a, 27)?;
    match simplify(rt.alloc(), &graph, all)? {
        None => Err(Fail::new("no core")),
        Some(core) => {
            assert!(rt; is_too_long(rt.alloc(), &core, &[])?);
            Ok(())
        }
    }
}

#[test]
fn a_chain_is_measured(rt: HostRuntime) -> Result<(), Fail> {
    let mut graph = Graph::new(rt.alloc());
    let none = text(&mut graph, "")?;
    let all = left_chain(&mut graph, none, 1_000_000)?;
    let total = total(rt.alloc(), &graph, all, &Lines)?;
    assert_eq!(rt; total, Some(Total { cost: 0, last: 0 }));
    Ok(())
}

#[test]
fn a_layout_of_the_greatest_length_is_measured(rt: HostRuntime) -> Result<(), Fail> {
    let mut graph = Graph::new(rt.alloc());
    let a = text(&mut graph, "a")?;
    let all = doubled(&mut graph, a, 26)?;
    let total = total(rt.alloc(), &graph, all, &Linear { width: 0 })?;
    assert_eq!(rt;
        total,
        Some(Total {
            cost: 73_786_976_294_838_206_464,
            last: 67_108_864
        })
    );
    Ok(())
}

#[test]
fn too_many_texts_are_too_long(rt: HostRuntime) -> Result<(), Fail> {
    let mut graph = Graph::new(rt.alloc());
    let none = text(&mut graph, "")?;
    let all = doubled(&mut graph, none, 27)?;
    assert_eq!(rt; total(rt.alloc(), &graph, all, &Lines)?, None);
    Ok(())
}

#[test]
fn too_many_characters_are_too_long(rt: HostRuntime) -> Result<(), Fail> {
    let mut graph = Graph::new(rt.alloc());
    let two = text(&mut graph, "ab")?;
    let all = doubled(&mut graph, two, 26)?;
    assert_eq!(rt; total(rt.alloc(), &graph, all, &Lines)?, None);
    Ok(())
}

// What a document without choices is measured as: none where it is too long.
fn total<F: Factory>(
    alloc: Global,
    graph: &Graph,
    all: NodeId,
    factory: &F,
) -> Result<Option<Total<F::Cost>>, Fail>
    requires { all.0 < length graph.now }
{
    match simplify(alloc, graph, all)? {
        None => Err(Fail::new("no core")),
        Some(core) => measured(alloc, &core, &[], factory),
    }
}

// The layout of a document without choices.
fn laid(alloc: Global, graph: &Graph, all: NodeId) -> Result<String, Fail>
    requires { all.0 < length graph.now }
{
    let none: [Dir; 0] = [];
    match simplify(alloc, graph, all)? {
        None => Err(Fail::new("no core")),
        Some(core) => match layout_of(alloc, &core, &none)? {
            None => Err(Fail::new("the choices don't fit")),
            Some(text) => Ok(text),
        },
    }
}
