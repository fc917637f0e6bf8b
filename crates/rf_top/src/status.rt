//! How a run ends.

/// How a run ended. Its number is the program's exit status.
#[derive(Clone, Copy, Debug, PartialEq, Eq)]
pub enum Status {
    /// The answer was written whole, and with `--check` the text equals the source.
    Fine = 0,
    /// With `--check`: the text differs from the source.
    Differs = 1,
    /// The source is too long, or is refused with a kind at an offset.
    SourceRefused = 2,
    /// The style file is too long, or is refused.
    StyleRefused = 3,
    /// The words are refused.
    WordsRefused = 4,
    /// A read of the source or of the style file failed.
    ReadFault = 5,
    /// A write of the answer failed.
    WriteFault = 6,
    /// Memory ran out.
    NoMemory = 7,
    /// The layout is too long.
    TooLong = 8,
}
