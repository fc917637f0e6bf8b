//! Laws of what a file is laid out as.

ghost use Rattle.rf_whole.specs.Laws.{LongIsTooLong, OneWhole, WholeIsFormatted, WholeOrTooLong};

/// A file has one layout. So the answer is the same for every number of jobs and every gate.
pub fn one_whole<C>()
    ensures { OneWhole C }
{}

/// No file is laid out and too long.
pub fn whole_or_too_long<C>()
    ensures { WholeOrTooLong C }
{}

/// Where addition reflects the order of what its layouts cost, the layout of a source form by form is that of its
/// document as a whole.
pub fn whole_is_formatted<C>()
    ensures { WholeIsFormatted C }
{}

/// And what is too long form by form is too long as a whole.
pub fn long_is_too_long<C>()
    ensures { LongIsTooLong C }
{}
