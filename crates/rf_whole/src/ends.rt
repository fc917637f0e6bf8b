//! Line ends behind forms.

ghost use Rattle.std.specs.Prelude.{◌≡◌, ◌++◌, replicate, OnOk};
ghost use Rattle.std.specs.String.{string_bytes};
ghost use Rattle.rf_base_document.specs.Render.{Break};
ghost use Rattle.rf_base_cost.specs.Cost.{IsValue, cost_after};

use rf_cost::Factory;
use std::alloc::AllocError;

/// Puts so many line feeds behind a text. An `AllocError` comes for want of memory, and some may stand there then.
pub fn push_ends(text: &mut String, count: u32) -> Result<(), AllocError>
    ensures { OnOk result (string_bytes text.new ≡ string_bytes text.old ++ replicate count 10) }
{
    if count == 0 {
        return Ok(());
    }
    text.push('\n')?;
    push_ends(text, count - 1)
}

/// What so many line ends cost behind this cost: a break without indentation for each.
pub fn ends_cost<F: Factory>(factory: &F, cost: F::Cost, count: u32) -> F::Cost
    requires { IsValue (F.costs factory.now) cost }
    ensures { result ≡ cost_after (F.costs factory.now) cost (replicate count (Break 0)) }
{
    let mut sum = cost;
    let mut left = count;
    while left > 0 {
        sum = factory.add(sum, factory.newline(0));
        left -= 1;
    }
    sum
}
