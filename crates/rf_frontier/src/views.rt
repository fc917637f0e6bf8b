//! Choices as a walk over measures sees them.

ghost use Rattle.std.specs.Prelude.{◌≡◌};
ghost use Rattle.rf_base_cost.specs.Pareto.{rewayed};
ghost use Rattle.rf_frontier.specs.Plans.{planned_behind};

use crate::before::Before;
use crate::hows::HowId;
use rf_base_cost::Measure;

// How the choices of a measure are seen.
pub trait View<H: Copy, K: Copy> {
    ghost seen: { Self → H → K };

    fn see(&self, how: H) -> K
        ensures { result ≡ seen self.now how };
}

// Choices as they are.
pub struct AsTheyAre;

impl<H: Copy> View<H, H> for AsTheyAre {
    ghost seen = { λ _ how. how };

    fn see(&self, how: H) -> H {
        how
    }
}

// A way that isn't made yet: these choices, and then those of the way.
#[derive(Clone, Copy)]
pub struct Planned {
    pub before: Before,
    pub how: HowId,
}

impl View<HowId, Planned> for Before {
    ghost seen = { planned_behind };

    fn see(&self, how: HowId) -> Planned {
        Planned { before: *self, how }
    }
}

/// The measure with its choices as they are seen.
pub fn viewed<C: Copy, H: Copy, K: Copy, V: View<H, K>>(m: Measure<C, H>, view: &V) -> Measure<C, K>
    ensures { result ≡ rewayed (V.seen view.now) m }
{
    Measure {
        last: m.last,
        cost: m.cost,
        how: view.see(m.how),
    }
}
