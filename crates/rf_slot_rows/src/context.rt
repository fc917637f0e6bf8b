//! What all is put together with.

ghost use Rattle.rf_base_style.specs.Table.{AreRules};
ghost use Rattle.rf_base_style.specs.Props.{AreRules-prop};

use rf_style::Style;
use rf_tree::Tree;
use std::alloc::Global;

/// What all is put together with.
#[derive(Clone, Copy)]
pub struct Context<'t> {
    /// Where memory comes from.
    pub alloc: Global,
    /// The tree of the file.
    pub tree: &'t Tree<'t>,
    /// The style of the documents.
    pub style: &'t Style,
    ghost rules: { AreRules style.now.forms } by { AreRules-prop style.now.forms },
}
