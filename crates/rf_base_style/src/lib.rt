//! What a style's table says: the shapes that lists take, the rules that heads have, and how the columns of a text are
//! counted.
//!
//! The types here are those that definitions and code share. The definitions stand in `specs/`; each function here but
//! `columns_named` has an empty body, and its contract is a law of theirs.
#![tactic(auto)]

mod columns;
mod rules;

ghost use Rattle.rf_base_style.specs.Laws.{DefaultsAreStyle, HeadsHaveRules, LengthsKeepLimits, RulesAreFound, TablesStayRules};

pub use columns::{Columns, columns_named};
pub use rules::{Charges, Form, Rule};

/// A text takes up at most two columns a character, however its columns are counted.
#[tactic(auto, using(crate::proofs::Lengths::lengths_keep_limits))]
pub fn lengths_keep_limits()
    ensures { LengthsKeepLimits }
{}

/// A rule that is put into a table is the rule of its name, and no other name's rule changes.
#[tactic(auto, using(crate::proofs::Tables::rules_are_found))]
pub fn rules_are_found()
    ensures { RulesAreFound }
{}

/// A table whose rules have their numbers in their ranges stays one where such a rule is put into it.
#[tactic(auto, using(crate::proofs::Tables::tables_stay_rules))]
pub fn tables_stay_rules()
    ensures { TablesStayRules }
{}

/// The rule of each head has its numbers in their ranges, whether or not the table has it.
#[tactic(auto, using(crate::proofs::Tables::heads_have_rules))]
pub fn heads_have_rules()
    ensures { HeadsHaveRules }
{}

/// The style without a style file has its numbers in their ranges.
#[tactic(auto, using(crate::proofs::Tables::defaults_are_style))]
pub fn defaults_are_style()
    ensures { DefaultsAreStyle }
{}
