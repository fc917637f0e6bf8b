//! Why no item can be read.

/// Why no item can be read at a place. Kinds of refusal are numbered for those who tell them apart by number.
#[derive(Clone, Copy, Debug, PartialEq, Eq)]
pub enum LexKind {
    /// A hash sign that begins nothing.
    BadHash = 2,
    /// A string without its closing quote.
    OpenString = 3,
    /// A block comment that isn't closed.
    OpenComment = 4,
    /// A bar without its pair, or a backslash at the end of the source.
    OpenBar = 5,
    /// A here string without its terminating line.
    OpenHere = 6,
    /// A CR that no LF follows, U+0085, U+2028 or U+2029 in a line comment or on the language line, or a CR in a here
    /// string.
    StrayLineEnd = 7,
    /// A language line that isn't one, or that stands behind other items than comments.
    LanguageLine = 8,
    /// A language with another reader than the plain one.
    LanguageReader = 9,
}
