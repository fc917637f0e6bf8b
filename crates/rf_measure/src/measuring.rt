//! A resolution's cost and last column.

ghost use Rattle.std.specs.Prelude.{IfOk, IsErrOf};
ghost use Rattle.rf_base_document.specs.Document.{Doc};
ghost use Rattle.rf_base_document.specs.Picks.{Picks, HasPicked};
ghost use Rattle.rf_base_document.specs.TooLong.{IsTooLong};
ghost use Rattle.rf_base_document.specs.Graph.{StandsFor};
ghost use Rattle.rf_measure.specs.Measured.{IsMeasured};

use crate::tallies::Tally;
use rf_cost::Factory;
use rf_flat::{Core, Dir};
use rf_walk::{LayoutError, Paper, lay_out};
use std::alloc::Global;

/// What the layout of a resolution costs, and where it ends.
#[derive(Clone, Copy, Debug, PartialEq, Eq)]
pub struct Total<C> {
    /// The factory's costs of the layout's texts, line breaks and charges, added in order.
    pub cost: C,
    /// The column that the layout ends at, from 0.
    pub last: u32,
}

/// What the layout of the resolution that the choices pick costs, at column 0 and indentation 0, and the column
/// that it ends at. No text is kept, and the core may be deep, since what is left waits on a stack. `TooLong` comes
/// exactly where that layout has more than 67,108,864 characters, or the resolution more texts, line breaks and
/// choices than that; `Memory` for want of memory.
pub fn measure<F: Factory>(
    alloc: Global,
    core: &Core,
    choices: &[Dir],
    factory: &F,
) -> Result<Total<F::Cost>, LayoutError>
    requires { (d : Doc) × StandsFor core.now.nodes core.now.root d × HasPicked d choices.now }
    ensures measured { IfOk result (λ total. (d e : Doc) → StandsFor core.now.nodes core.now.root d
        → Picks d choices.now e → IsMeasured (F.costs factory.now) e choices.now total.cost total.last) }
    ensures too_long { IsErrOf result LayoutError.TooLong → (d e : Doc) → StandsFor core.now.nodes core.now.root d
        → Picks d choices.now e → IsTooLong e choices.now }
{
    let mut tally = Tally::none(factory);
    lay_out(alloc, core, choices, &mut tally)?;
    Ok(Total {
        cost: tally.cost,
        last: tally.column(),
    })
}
