//! The directions that choices go in.

use std::fmt;

/// The alternative that a resolution takes at a choice.
#[derive(Clone, Copy, Debug, PartialEq, Eq)]
pub enum Dir {
    /// The first alternative, printed `L`.
    Left,
    /// The second alternative, printed `R`.
    Right,
}

impl fmt::Display for Dir {
    ghost use Rattle.std.specs.Prelude.{Some};
    ghost use Rattle.rf_base_document.specs.Directions.{letter};

    ghost output = { λ dir. Some (letter dir) };

    fn fmt<W: fmt::Write>(&self, f: &mut fmt::Formatter<W>) -> fmt::Result {
        match self {
            Dir::Left => write!(f, "L"),
            Dir::Right => write!(f, "R"),
        }
    }
}
