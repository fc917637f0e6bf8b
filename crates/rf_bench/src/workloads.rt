//! Documents that are laid out, most of them from the evaluation of "A Pretty Expressive Printer".

ghost use Rattle.std.specs.Prelude.{◌<◌, ◌≤◌, length, IfOk, IfSome};

use crate::rows::{choices_in_a_row, filled, flat_or_not, row};
use crate::trees::{full_tree, random_tree};
use crate::values::random_value;
use rf_doc::{Graph, NodeId};
use std::alloc::Global;
use std::test::Fail;

/// A document that is laid out.
#[derive(Clone, Copy)]
pub enum Workload {
    /// So many texts one after another.
    Row,
    /// So many words, with a space or a line break between each two.
    Filled,
    /// So many lines, each of which may be flat with all before it.
    FlatOrNot,
    /// A full tree of lists of so many levels.
    FullTree,
    /// A tree of so many lists and atoms.
    RandomTree,
    /// A value in JSON of so many parts.
    Json,
    /// So many choices one after another.
    Choices,
}

/// The document that a word names, its usual size, and its computation width.
pub fn named(word: &str) -> Option<(Workload, u32, u32)>
    ensures some_width { IfSome result (λ found. 1 ≤ found.2) }
    ensures width { IfSome result (λ found. found.2 ≤ 400) }
{
    match word {
        "concat" => Some((Workload::Row, 50_000, 100)),
        "fill" => Some((Workload::Filled, 20_000, 100)),
        "flatten" => Some((Workload::FlatOrNot, 8_000, 100)),
        "full-tree" => Some((Workload::FullTree, 13, 100)),
        "random-tree" => Some((Workload::RandomTree, 10_000, 100)),
        "json" => Some((Workload::Json, 10_000, 100)),
        "choices" => Some((Workload::Choices, 60, 80)),
        _ => None,
    }
}

/// The document of a workload and size.
pub fn workload_document(
    alloc: Global,
    graph: &mut Graph,
    workload: Workload,
    size: u32,
) -> Result<NodeId, Fail>
    ensures { IfOk result (λ id. id.0 < length graph.new) }
{
    match workload {
        Workload::Row => row(graph, size),
        Workload::Filled => filled(alloc, graph, size),
        Workload::FlatOrNot => flat_or_not(graph, size),
        Workload::FullTree => full_tree(alloc, graph, size),
        Workload::RandomTree => random_tree(alloc, graph, size),
        Workload::Json => random_value(alloc, graph, size),
        Workload::Choices => choices_in_a_row(graph, size),
    }
}
