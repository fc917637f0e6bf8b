//! What is known of the items before a place.

ghost use Rattle.std.specs.Prelude.{◌≡◌, ◌&&◌, ◌||◌, ◌∷◌, [], List, nat_lt};
ghost use Rattle.rf_base_grammar.specs.declared.kinds.Kind.{Kind as KindOf};
ghost use Rattle.rf_base_grammar.specs.Spelled.{may_lead as may_stand_before};
ghost use Rattle.rf_base_grammar.specs.Token.{is_line_comment};
ghost use Rattle.rf_lexer.specs.Next.{AreBefore};

use rf_base_grammar::Kind;

/// What is known of the items before a place.
#[derive(Clone, Copy)]
pub struct Before {
    /// Whether there are none.
    pub none: bool,
    /// Whether a language line may stand behind them.
    pub language: bool,
}

impl Before {
    /// No items.
    pub fn nothing() -> Before
        ensures { AreBefore [] result }
    {
        Before {
            none: true,
            language: true,
        }
    }

    /// Whether an item of the kind behind a gap with so many LFs is a line comment that begins its line.
    pub fn own_line(self, kind: Kind, feeds: u32) -> bool
        ensures { result ≡ (is_line_comment kind && (self.none || nat_lt 0 feeds)) }
    {
        is_comment(kind) && (self.none || feeds > 0)
    }

    /// These items and one of the kind.
    pub fn and(self, kind: Kind) -> Before
        ensures { (before : List KindOf) → AreBefore before self → AreBefore (kind ∷ before) result }
    {
        Before {
            none: false,
            language: may_lead(kind) && self.language,
        }
    }
}

// Whether an item of the kind may stand before the language line.
fn may_lead(kind: Kind) -> bool
    ensures { result ≡ may_stand_before kind }
{
    matches!(kind, Kind::Line | Kind::Block)
}

// Whether the kind is a line comment.
fn is_comment(kind: Kind) -> bool
    ensures { result ≡ is_line_comment kind }
{
    matches!(kind, Kind::Line)
}
