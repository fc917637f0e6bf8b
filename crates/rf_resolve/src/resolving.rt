//! The chosen resolution of a core.

ghost use Rattle.std.specs.Prelude.{◌≡◌, ◌≤◌, ◌↔◌, false, length, IfOk, IsErrOf, IsTrue};
ghost use Rattle.rf_base_document.specs.Document.{Doc};
ghost use Rattle.rf_base_document.specs.Picks.{Picks};
ghost use Rattle.rf_base_document.specs.TooLong.{IsTooLong};
ghost use Rattle.rf_base_document.specs.Graph.{StandsFor};
ghost use Rattle.rf_base_optimum.specs.Chosen.{choose};
ghost use Rattle.rf_base_optimum.specs.Best.{HasWithin};
ghost use Rattle.rf_base_steps.specs.Steps.{MakesAtMost};
ghost use Rattle.rf_measure.specs.Measured.{IsMeasured};
ghost use Rattle.rf_resolve.specs.Resolved.{resolve_steps};

use crate::faults::ResolveError;
use crate::settings::Setting;
use crate::walking::{chosen_choices, first_measure};
use crate::walks::Frame;
use rf_base_steps::Steps;
use rf_cost::Factory;
use rf_flat::{Core, Dir};
use rf_frontier::Hows;
use rf_measure::measure;
use rf_memo::Memo;
use std::alloc::Global;
use std::sync::ledger::Ledger;

/// The resolution that is chosen of a document.
#[derive(Debug, Drop)]
pub struct Resolution<C> {
    /// The choices that pick it, in the order in which they are reached.
    pub choices: Vec<Dir>,
    /// What its layout costs.
    pub cost: C,
    /// Whether some resolution is within the computation width. Then this one is too, and none that is costs less.
    pub within: bool,
    /// The column that its layout ends at, from 0.
    pub last: u32,
}

/// The chosen resolution of a core at column 0 and indentation 0: where some resolution is within `limit` columns, one
/// of those of the least cost, and otherwise the same part by part. `limit` is the computation width, from 1 to 400
/// columns.
///
/// Costs are compared on the counter, at most `6 * n * (limit + 1)^3 * (limit + 2)` times for a core of n nodes, also
/// where it is refused. `TooLong` comes exactly where the chosen layout has more than 67,108,864 characters, or its
/// resolution more texts, line breaks and choices than that; `Memory` for want of memory. The core may be deep, since
/// all work waits on stacks.
///
/// Of the text `abc` or `a`, within 1 column, `a` is chosen, by the choice `R`; of `abc` alone `abc`, which isn't
/// within.
pub fn resolve<F: Factory, L: Ledger>(
    alloc: Global,
    core: &Core,
    factory: &F,
    limit: u32,
    steps: &mut Steps<L>,
) -> Result<Resolution<F::Cost>, ResolveError>
    requires some_width { 1 ≤ limit }
    requires width { limit ≤ 400 }

    ensures chosen { IfOk result (λ found. (d : Doc) → StandsFor core.now.nodes core.now.root d
        → found.choices.items ≡ (choose (F.costs factory.now) limit d 0 0).choices) }
    ensures measured { IfOk result (λ found. (d e : Doc) → StandsFor core.now.nodes core.now.root d
        → Picks d found.choices.items e
        → IsMeasured (F.costs factory.now) e found.choices.items found.cost found.last) }
    ensures within { IfOk result (λ found. (d : Doc) → StandsFor core.now.nodes core.now.root d
        → (IsTrue found.within ↔ HasWithin limit d 0 0 false)) }
    ensures too_long { IsErrOf result ResolveError.TooLong → (d e : Doc) → StandsFor core.now.nodes core.now.root d
        → Picks d (choose (F.costs factory.now) limit d 0 0).choices e
        → IsTooLong e (choose (F.costs factory.now) limit d 0 0).choices }
    ensures steps { MakesAtMost (resolve_steps (length core.now.nodes) limit) steps.old steps.new }
{
    let setting = Setting {
        core,
        factory,
        limit,
    };
    let mut memo = Memo::new(alloc);
    let mut hows = Hows::with_leaf(alloc)?;
    let root = Frame {
        node: core.root(),
        indentation: 0,
    };
    let within = first_measure(alloc, &setting, &mut memo, &mut hows, 0, root, steps)?.is_some();
    let choices = chosen_choices(alloc, &setting, &mut memo, &mut hows, steps)?;
    let total = measure(alloc, core, &choices, factory)?;
    Ok(Resolution {
        choices,
        cost: total.cost,
        within,
        last: total.last,
    })
}
