//! What stands on one level: in a list, behind a prefix or a skip, or at the top.

ghost use Rattle.std.specs.Prelude.{◌≡◌, [], ◌∷◌, OnOk};
ghost use Rattle.rf_base_tree.specs.Dots.{OfDatum, OfDot};
ghost use Rattle.rf_tree.specs.Levels.{Gains};
ghost use Rattle.rf_tree.specs.declared.dots.Dots.TheVariants.{NoData};

use crate::dots::Dots;
use crate::nodes::At;
use std::alloc::{AllocError, Global};

/// What stands on a level so far.
#[derive(Debug, Drop)]
pub struct Level {
    /// The nodes, in order.
    pub nodes: Vec<At>,
    /// Their data and dots, so that each next one is judged at once.
    pub dots: Dots,
}

impl Level {
    /// A level on which nothing stands yet.
    pub fn new(alloc: Global) -> Self
        ensures nodes { result.nodes.items ≡ [] }
        ensures dots { result.dots ≡ NoData }
    {
        Level {
            nodes: Vec::new(alloc),
            dots: Dots::NoData,
        }
    }

    /// Adds a datum.
    pub fn add_datum(&mut self, at: At) -> Result<(), AllocError>
        ensures { OnOk result (Gains at (OfDatum ∷ []) self.old self.new) }
    {
        self.nodes.push(at)?;
        self.dots = self.dots.with_datum();
        Ok(())
    }

    /// Adds a dot.
    pub fn add_dot(&mut self, at: At) -> Result<(), AllocError>
        ensures { OnOk result (Gains at (OfDot ∷ []) self.old self.new) }
    {
        self.nodes.push(at)?;
        self.dots = self.dots.with_dot();
        Ok(())
    }

    /// Adds a comment.
    pub fn add_comment(&mut self, at: At) -> Result<(), AllocError>
        ensures { OnOk result (Gains at [] self.old self.new) }
    {
        self.nodes.push(at)?;
        Ok(())
    }
}
