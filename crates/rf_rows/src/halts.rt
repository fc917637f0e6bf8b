//! Why a cell isn't put on a paper.

use rf_walk::LayoutError;

// Why a cell isn't put on a paper.
#[derive(Clone, Copy)]
pub enum Halt {
    // The paper doesn't take it.
    Refused(LayoutError),
    // Of a list that isn't made, another layout is picked than its line.
    Unmade,
}

impl From<LayoutError> for Halt {
    ghost use Rattle.std.specs.Prelude.{◌≡◌};
    ghost use Rattle.rf_rows.specs.declared.halts.Halt.TheVariants.{Refused};

    ghost from_gives = { λ refusal halt. halt ≡ Refused refusal };

    fn from(refusal: LayoutError) -> Halt {
        Halt::Refused(refusal)
    }
}
