//! Tests of trees, slots, separators and blank lines, in ample memory.
//!
//! Each table has a row a line: a source, `⇒`, and its whole answer, which was worked out from the grammar. In sources
//! `⏎` stands for LF, `«` for 499 times `(` and `»` for 499 times `)`. Items are told by their numbers, from 0.
//!
//! A tree is told so: a datum of one item or a dot by its number; a comment of one item by `;` and its number; a list
//! by `(`, its opener's number, what stands in it, its closer's number and `)`; a prefix by `'`, its number and, in
//! braces, the comments between it and its datum, and the datum; a skip so by `#`. A refusal is told by its kind and
//! its offset.
//!
//! Trees that are read part by part are told so too, each part behind a stroke.
//!
//! A slot is told so, in angle brackets: its leads, each by `;` and its first item; its key, by `:` and its item; its
//! datum, by its first item; and its trailing comment, by `~` and its item. The file's slots come first, and behind
//! each `/` those of a list, the one that ends first first; a dash says that there are none.
//!
//! A separator is told by `e` (nothing), `s` (one space), `l` (a line break or a space) or the number of blank lines
//! before the break that it is; for each two neighbours those for the wants `Nothing`, `Space`, `Line` and `Must`.
#![tactic(auto)]

#[cfg(test)]
mod depths;
#[cfg(test)]
mod dots;
#[cfg(test)]
mod gaps;
#[cfg(test)]
mod parts;
#[cfg(test)]
mod refusals;
#[cfg(test)]
mod settling;
#[cfg(test)]
mod shown;
#[cfg(test)]
mod slots;
#[cfg(test)]
mod table;
#[cfg(test)]
mod trees;
