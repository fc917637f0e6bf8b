//! The kinds of factories that a style can ask for. Its line `tactic` names the definition that a proof opens.

ghost use Rattle.std.specs.Prelude.{◌≡◌};
ghost use Rattle.rf_cost.specs.Kinds.{cost_named};

/// Which factory counts.
#[derive(Clone, Copy, Debug, PartialEq, Eq)]
pub enum CostKind {
    /// `Squares`: many small overflows rather than one great one.
    Squares,
    /// `Linear`: as few columns of overflow as can be.
    Linear,
    /// `Lines`: as few lines as can be.
    Lines,
}

/// The cost factory of this name, as style files and words say it.
#[tactic(auto, unfolding(crate::specs::Kinds::cost_named))]
pub fn cost_named(text: &str) -> Option<CostKind>
    ensures { result ≡ cost_named text.now }
{
    match text {
        "squares" => Some(CostKind::Squares),
        "linear" => Some(CostKind::Linear),
        "lines" => Some(CostKind::Lines),
        _ => None,
    }
}
