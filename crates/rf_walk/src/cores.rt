//! Resolutions of cores laid out.

ghost use Rattle.std.specs.Prelude.{[], OnOk, IsErrOf};
ghost use Rattle.rf_base_document.specs.Document.{Doc};
ghost use Rattle.rf_base_document.specs.Picks.{Picks, HasPicked};
ghost use Rattle.rf_base_document.specs.TooLong.{IsTooLong};
ghost use Rattle.rf_base_document.specs.Graph.{StandsFor};
ghost use Rattle.rf_walk.specs.LaidOut.{IsLaidOn};

use crate::faults::LayoutError;
use crate::papers::Paper;
use crate::walking::lay_out_nodes;
use rf_flat::{Core, Dir};
use std::alloc::Global;

/// Puts the layout of the resolution that the choices pick on a blank paper, at column 0 and indentation 0. The
/// core may be deep, since what is left waits on a stack. `TooLong` comes exactly where that layout has more than
/// 67,108,864 characters, or the resolution more texts, line breaks and choices than that; `Memory` for want of
/// memory.
pub fn lay_out<P: Paper>(
    alloc: Global,
    core: &Core,
    choices: &[Dir],
    paper: &mut P,
) -> Result<(), LayoutError>
    requires picked { (d : Doc) × StandsFor core.now.nodes core.now.root d × HasPicked d choices.now }
    requires blank { P.holds paper.old paper.old [] 0 }
    ensures laid { OnOk result ((d e : Doc) → StandsFor core.now.nodes core.now.root d → Picks d choices.now e
        → IsLaidOn (P.holds paper.old paper.new) e choices.now) }
    ensures too_long { IsErrOf result LayoutError.TooLong → (d e : Doc) → StandsFor core.now.nodes core.now.root d
        → Picks d choices.now e → IsTooLong e choices.now }
{
    lay_out_nodes(alloc, core, core.root(), choices, paper)
}
