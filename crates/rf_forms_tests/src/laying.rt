// From a source to what choices of its document pick.
ghost use Rattle.std.specs.Prelude.{◌<◌, length, IfOk};

use rf_doc::{Graph, NodeId};
use rf_documents::layout_of;
use rf_flat::{Dir, simplify};
use rf_forms::{file_doc, style_doc};
use rf_style::default_table;
use rf_tree::tops;
use rf_trees::tree_of;
use std::alloc::Global;
use std::test::Fail;

/// The node of the document of the source in the style without a style file. The nodes are added to the graph.
pub fn document_of(alloc: Global, source: &str, graph: &mut Graph) -> Result<NodeId, Fail>
    ensures { IfOk result (λ id. id.0 < length graph.new) }
{
    let style = default_table(alloc)?;
    let tree = tree_of(alloc, source)?;
    Ok(file_doc(alloc, &tree, &style, graph)?)
}

/// The same of the first top-level slot of the source.
pub fn slot_document_of(alloc: Global, source: &str, graph: &mut Graph) -> Result<NodeId, Fail> {
    let style = default_table(alloc)?;
    let tree = tree_of(alloc, source)?;
    let slots = tops(alloc, &tree)?;
    match slots.as_slice() {
        [slot, ..] => Ok(style_doc(alloc, &tree, &style, slot, graph)?),
        [] => Err(Fail::new("a source without a slot")),
    }
}

/// The layout that the choices pick in the document of this node, or `unfit` where they pick none.
pub fn laid_out(alloc: Global, graph: &Graph, root: NodeId, letters: &str) -> Result<String, Fail> {
    if root.0 >= graph.len() {
        return Err(Fail::new("a node that isn't there"));
    }
    let choices = choices_of(alloc, letters)?;
    let Some(core) = simplify(alloc, graph, root)? else {
        return Err(Fail::new("a document without a layout"));
    };
    match layout_of(alloc, &core, &choices)? {
        None => Ok(String::from_str(alloc, "unfit")?),
        Some(layout) => Ok(layout),
    }
}

// The choices that the letters stand for.
fn choices_of(alloc: Global, letters: &str) -> Result<Vec<Dir>, Fail> {
    let mut choices = Vec::new(alloc);
    if letters == "-" {
        return Ok(choices);
    }
    for letter in letters.chars() {
        match letter {
            'L' => choices.push(Dir::Left)?,
            'R' => choices.push(Dir::Right)?,
            _ => return Err(Fail::new("a letter that is no choice")),
        }
    }
    Ok(choices)
}
