//! A layout of a document, as it stands in a graph, as a text.

ghost use Rattle.std.specs.Prelude.{◌≡◌, ◌<◌, false, length, IfOk, IsErrOf};
ghost use Rattle.std.specs.Str.{chars};
ghost use Rattle.std.specs.String.{string_bytes};
ghost use Rattle.rf_base_document.specs.Document.{Doc};
ghost use Rattle.rf_base_document.specs.Render.{Laid};
ghost use Rattle.rf_base_document.specs.Picks.{Picks, LaidOutBy, weight_of};
ghost use Rattle.rf_base_document.specs.TooLong.{IsTooLong};
ghost use Rattle.rf_base_document.specs.Graph.{StandsFor};
ghost use Rattle.rf_render.specs.Rendered.{IsRendered};

use crate::faults::RenderError;
use crate::pages::Page;
use rf_doc::{Graph, NodeId};
use rf_flat::Dir;
use rf_walk::lay_out_document;
use std::alloc::Global;

/// A layout as a text, and how many texts, line breaks and choices its resolution has.
#[derive(Drop)]
pub struct Written {
    /// The characters of the layout.
    pub text: String,
    /// The number of texts, line breaks and choices.
    pub weight: u32,
}

/// The layout of the resolution that the choices pick of the root's document, at column 0 and indentation 0, and its
/// weight, in one walk over the graph. The document may be deep, since what is left waits on a stack. `TooLong` comes
/// exactly where that layout has more than 67,108,864 characters, or the resolution more texts, line breaks and choices
/// than that; `Memory` for want of memory.
pub fn render_document(
    alloc: Global,
    graph: &Graph,
    root: NodeId,
    choices: &[Dir],
) -> Result<Written, RenderError>
    requires in_graph { root.0 < length graph.now }
    requires picked { (d : Doc) × (whole : Laid) × StandsFor graph.now root.0 d
        × LaidOutBy d choices.now 0 0 false whole }
    ensures rendered { IfOk result (λ written. (d e : Doc) → StandsFor graph.now root.0 d → Picks d choices.now e
        → IsRendered e choices.now (chars (string_bytes written.text))) }
    ensures weighed { IfOk result (λ written. (d e : Doc) → StandsFor graph.now root.0 d → Picks d choices.now e
        → written.weight ≡ weight_of e choices.now) }
    ensures too_long { IsErrOf result RenderError.TooLong → (d e : Doc) → StandsFor graph.now root.0 d
        → Picks d choices.now e → IsTooLong e choices.now }
{
    let mut page = Page::blank(alloc);
    lay_out_document(alloc, graph, root, choices, &mut page)?;
    let weight = page.extent.weight();
    Ok(Written {
        text: page.text,
        weight,
    })
}
