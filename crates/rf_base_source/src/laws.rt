//! What accepted and refused sources are. Each function here has an empty body, and its contract is a law of the
//! definitions in `specs/`.

ghost use Rattle.rf_base_source.specs.Laws.{NeverBoth, EachIsAnswered, OneRefusal};

/// No source both has a tree and is refused.
pub fn never_both()
    ensures { NeverBoth }
{}

/// Each byte string has a tree or is refused.
pub fn each_is_answered()
    ensures { EachIsAnswered }
{}

/// A source is refused for at most one reason, at one byte.
pub fn one_refusal()
    ensures { OneRefusal }
{}
