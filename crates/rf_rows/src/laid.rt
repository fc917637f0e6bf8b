//! Laid rows: the documents of cells, told node by node.

use crate::pieces::Piece;
use crate::rows::Rows;
use crate::unmade::Unmade;
use rf_base_document::Dir;

/// Rows whose cells are asked for node by node.
#[derive(Clone, Copy)]
pub struct LaidRows<'r, 't> {
    /// The rows.
    pub rows: &'r Rows<'t>,
}

impl<'r, 't> LaidRows<'r, 't> {
    ghost use Rattle.std.specs.Prelude.{◌≡◌, [], ◌∷◌, IfSome};
    ghost use Rattle.std.specs.Str.{chars};
    ghost use Rattle.rf_base_document.specs.Document.{Text as a_text, KeepsTextLimits};
    ghost use Rattle.rf_rows.specs.declared.pieces.Fill.{Fill as a_fill};
    ghost use Rattle.rf_rows.specs.Rows.{stacked};
    ghost use Rattle.rf_rows.specs.Laid.{laid_cell};
    ghost use Rattle.rf_rows.specs.Unmade.{IsUnmade, turns_of};

    // The choices of a list that isn't made, flat or not.
    pub(crate) fn turns(&self, unmade: &Unmade, flat: bool) -> &'r [Dir]
        requires { IsUnmade self.now.rows.now.turns.items unmade.now }
        ensures { result.now ≡ turns_of self.now.rows.now.turns.items unmade.now flat }
    {
        let first = unmade.turns as usize;
        let middle = first + unmade.loose as usize;
        if flat {
            &self.rows.turns[middle..middle + unmade.flat as usize]
        } else {
            &self.rows.turns[first..middle]
        }
    }

    /// The number of the cell that stands on the stack, where nothing else does.
    pub fn top(&self) -> Option<u32>
        ensures { IfSome result (λ cell. (fill : a_fill)
            → stacked self.now.rows.now fill ≡ laid_cell self.now cell ∷ []) }
    {
        match self.rows.stack.as_slice() {
            [Piece::Cell(k)] => Some(*k),
            _ => None,
        }
    }

    /// The text that stands on the stack, where nothing else does, and how many columns it takes up.
    pub fn top_text(&self) -> Option<(&'t str, u32)>
        ensures limits { IfSome result (λ top. KeepsTextLimits (chars top.0.now) top.1) }
        ensures alone { IfSome result (λ top. (fill : a_fill)
            → stacked self.now.rows.now fill ≡ a_text (chars top.0.now) top.1 ∷ []) }
    {
        match self.rows.stack.as_slice() {
            [Piece::Text(len, s)] => Some((*s, *len)),
            _ => None,
        }
    }
}
