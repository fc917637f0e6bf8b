//! Tests of the lexer, in ample memory.
//!
//! Each table has a row a line: a source, `⇒`, and its whole answer, which was worked out from the grammar. The answer
//! is the items with their kinds, bytes, blank lines and whether they begin their line, or the kind and the offset of
//! the refusal. In sources `⏎` stands for LF, `␍` for CR, `⇥` for a tab, `°` for the no-break space, `¹` for U+0085,
//! `²` for U+2028, `³` for U+2029 and `⁰` for the byte order mark U+FEFF.
#![tactic(auto)]

#[cfg(test)]
mod atoms;
#[cfg(test)]
mod brackets;
#[cfg(test)]
mod comments;
#[cfg(test)]
mod gaps;
#[cfg(test)]
mod languages;
#[cfg(test)]
mod prefixes;
#[cfg(test)]
mod strings;
#[cfg(test)]
mod table;
