//! What items and the lexer's refusals mean. Each function here has an empty body, and its contract is a law of the
//! definitions in `specs/`.

ghost use Rattle.rf_base_grammar.specs.Laws.{ReaderIsExact, OneListOfItems, ItemsOrRefusal, OneLexRefusal, EachIsLexed};
ghost use Rattle.rf_base_grammar.specs.Reading.{WovenReadsBack};
ghost use Rattle.rf_base_grammar.specs.TrailingSpace.{WovenHasNoTrailingSpace};

/// The plain slow reader finds just the items, and refuses just what is refused.
pub fn reader_is_exact()
    ensures { ReaderIsExact }
{}

/// A text has at most one list of items.
pub fn one_list_of_items()
    ensures { OneListOfItems }
{}

/// No text both has items and is refused by the lexer.
pub fn items_or_refusal()
    ensures { ItemsOrRefusal }
{}

/// A text is refused by the lexer for at most one reason, at one byte.
pub fn one_lex_refusal()
    ensures { OneLexRefusal }
{}

/// Each byte string has items, or isn't UTF-8, or is refused by the lexer.
pub fn each_is_lexed()
    ensures { EachIsLexed }
{}

/// A text that is woven of a source's items has these items.
pub fn woven_reads_back()
    ensures { WovenReadsBack }
{}

/// A text that is woven of a source's items has no trailing space but in its items.
pub fn woven_has_no_trailing_space()
    ensures { WovenHasNoTrailingSpace }
{}
