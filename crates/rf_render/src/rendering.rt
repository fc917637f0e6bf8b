//! A resolution's layout as a text.

ghost use Rattle.std.specs.Prelude.{IfOk, IsErrOf};
ghost use Rattle.std.specs.Str.{chars};
ghost use Rattle.std.specs.String.{string_bytes};
ghost use Rattle.rf_base_document.specs.Document.{Doc};
ghost use Rattle.rf_base_document.specs.Picks.{Picks, HasPicked};
ghost use Rattle.rf_base_document.specs.TooLong.{IsTooLong};
ghost use Rattle.rf_base_document.specs.Graph.{StandsFor};
ghost use Rattle.rf_render.specs.Rendered.{IsRendered};

use crate::faults::RenderError;
use crate::pages::Page;
use rf_flat::{Core, Dir};
use rf_walk::lay_out;
use std::alloc::Global;

/// The layout of the resolution that the choices pick, at column 0 and indentation 0. The core may be deep,
/// since what is left waits on a stack. `TooLong` comes exactly where that layout has more than 67,108,864
/// characters, or the resolution more texts, line breaks and choices than that; `Memory` for want of memory.
///
/// That of `a`, a newline and `b` has the lines `a` and `b`.
pub fn render(alloc: Global, core: &Core, choices: &[Dir]) -> Result<String, RenderError>
    requires { (d : Doc) × StandsFor core.now.nodes core.now.root d × HasPicked d choices.now }
    ensures rendered { IfOk result (λ text. (d e : Doc) → StandsFor core.now.nodes core.now.root d
        → Picks d choices.now e → IsRendered e choices.now (chars (string_bytes text))) }
    ensures too_long { IsErrOf result RenderError.TooLong → (d e : Doc) → StandsFor core.now.nodes core.now.root d
        → Picks d choices.now e → IsTooLong e choices.now }
{
    let mut page = Page::blank(alloc);
    lay_out(alloc, core, choices, &mut page)?;
    Ok(page.text)
}
