//! A law of what is known. The function has an empty body, and its contract is the law, whose lemma its line `tactic`
//! names.

ghost use Rattle.rf_outline.specs.Known.{KnownGoesOn};

/// What is known by older ways is known by newer ones that keep them.
#[tactic(auto, using(crate::proofs::Holds::are_known_kept))]
pub fn known_goes_on()
    ensures { KnownGoesOn }
{}
