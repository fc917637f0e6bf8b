//! How the columns of a text are counted. Its line `tactic` names the definition that a proof opens.

ghost use Rattle.std.specs.Prelude.{◌≡◌};
ghost use Rattle.rf_base_style.specs.Columns.{columns_named};

/// How the columns of a text are counted.
#[derive(Clone, Copy, Debug, PartialEq, Eq)]
pub enum Columns {
    /// One for each character (Unicode scalar value).
    Characters,
    /// As a terminal shows the characters: the width that Unicode gives each by itself.
    Display,
}

/// The way of counting columns of this name, as style files and words say it.
#[tactic(auto, unfolding(crate::specs::Columns::columns_named))]
pub fn columns_named(text: &str) -> Option<Columns>
    ensures { result ≡ columns_named text.now }
{
    match text {
        "characters" => Some(Columns::Characters),
        "display" => Some(Columns::Display),
        _ => None,
    }
}
