//! What all is written with, and where something stands.

ghost use Rattle.rf_base_style.specs.Table.{AreRules};
ghost use Rattle.rf_base_style.specs.Props.{AreRules-prop};

use rf_style::Style;
use rf_tree::Tree;

/// What all is written with.
#[derive(Clone, Copy)]
pub struct Writer<'t> {
    /// The tree of the file.
    pub tree: &'t Tree<'t>,
    /// The style of the documents.
    pub style: &'t Style,
    /// How many columns the line may take up.
    pub most: u32,
    ghost rules: { AreRules style.now.forms } by { AreRules-prop style.now.forms },
}

/// Where a node of the tree stands.
#[derive(Clone, Copy)]
pub struct LinePlace {
    /// The number of the node that it stands in: its own is smaller.
    pub before: usize,
    /// Whether it is quoted.
    pub quoted: bool,
    /// Whether it is flat.
    pub flat: bool,
}
