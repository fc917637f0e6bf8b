//! Documents laid out from their graphs, beside their cores.

ghost use Rattle.std.specs.Prelude.{◌<◌, false, length, Some};
ghost use Rattle.rf_base_document.specs.Document.{Doc};
ghost use Rattle.rf_base_document.specs.Simple.{simple};
ghost use Rattle.rf_base_document.specs.Graph.{StandsFor};
ghost use Rattle.rf_flat.specs.Simplified.{StandsForCore};

use crate::layout_tests::ROWS;
use crate::showing::parted;
use rf_doc::{Graph, NodeId};
use rf_documents::{choices, document};
use rf_flat::{Core, Dir, fits, simplify};
use rf_render::{Written, render, render_document};
use std::alloc::Global;
use std::test::Fail;

// A row: a document in postfix form, the choices, and the weight: its texts, its line breaks, flat ones too, and the
// choices. `charge` is 3.
const WEIGHTS: &str = "a ;; 1
a line + b + ;; 3
a line + b + flat ;; 3
a hard + b + ;; 3
a b | ; L ; 2
a hard | flat ; L ; 2
hard a b | | flat ; RL ; 3
line charge charge nest align reset ;; 1
a b | c | same + flat ; LRR ; 5";

#[test]
fn documents_are_laid_out_as_their_cores(rt: HostRuntime) -> Result<(), Fail> {
    for row in ROWS.split('\n') {
        check(rt.alloc(), row, false)?;
    }
    Ok(())
}

#[test]
fn documents_have_these_weights(rt: HostRuntime) -> Result<(), Fail> {
    for row in WEIGHTS.split('\n') {
        check(rt.alloc(), row, true)?;
    }
    Ok(())
}

// Fails where the row's document has another layout than its core, or is weighed and has another weight than the row
// says.
fn check(alloc: Global, row: &str, weighed: bool) -> Result<(), Fail> {
    let (words, letters, wanted) = parted(row)?;
    let mut graph = Graph::new(alloc);
    let root = document(alloc, &mut graph, words)?;
    let choices = choices(alloc, letters)?;
    let written = written(alloc, &graph, root, &choices)?;
    if weighed && weight(alloc, &written)?.as_str() != wanted {
        return Err(Fail::new(format!(in alloc; "{row}")?));
    }
    Ok(())
}

// The weight behind a space, and ` no` where there is no layout.
fn weight(alloc: Global, written: &Option<Written>) -> Result<String, Fail> {
    match written {
        None => Ok(String::from_str(alloc, " no")?),
        Some(written) => Ok(format!(in alloc; " {}", written.weight)?),
    }
}

// What the document is laid out as by these choices, which is what its core is: none where they don't fit.
fn written(
    alloc: Global,
    graph: &Graph,
    root: NodeId,
    choices: &[Dir],
) -> Result<Option<Written>, Fail>
    requires { root.0 < length graph.now }
{
    match simplify(alloc, graph, root)? {
        None => Ok(None),
        Some(core) => beside_core(alloc, graph, root, &core, choices),
    }
}

// The same of a document with this core.
fn beside_core(
    alloc: Global,
    graph: &Graph,
    root: NodeId,
    core: &Core,
    choices: &[Dir],
) -> Result<Option<Written>, Fail>
    requires in_graph { root.0 < length graph.now }
    requires core { (d : Doc) → StandsFor graph.now root.0 d → StandsForCore (Some core.now) (simple d false) }
{
    // So the core is known to be a graph.
    prove!(core.root() < core.len());
    // So the graph is known to be one.
    prove!(root.0 < graph.len());
    let fit = fits(alloc, core, choices)?;
    if fit {
        let Ok(text) = render(alloc, core, choices) else {
            return Err(Fail::new("a core that isn't laid out"));
        };
        let Ok(written) = render_document(alloc, graph, root, choices) else {
            return Err(Fail::new("a document that isn't laid out"));
        };
        if written.text != text {
            return Err(Fail::new("a document that isn't laid out as its core"));
        }
        Ok(Some(written))
    } else {
        Ok(None)
    }
}
