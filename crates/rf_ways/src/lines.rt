//! The lines of a text.

ghost use Rattle.rf_ways.specs.Lines.{CutsLine};

/// The first line of the text, and what is behind its line end; none where the text has one line.
pub fn first_line(text: &str) -> Option<(&str, &str)>
    ensures { CutsLine text.now result }
{
    text.split_once('\n')
}
