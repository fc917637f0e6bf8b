//! Tests of texts: how many columns they take up, and in which line two of them differ first.
//!
//! Each table has a row a line: what is tried, `⇒`, and the answer, which was worked out by hand. `⏎` stands for LF,
//! `⇥` for a tab and `␀` for the character 0.
#![tactic(auto)]

#[cfg(test)]
mod columns;
#[cfg(test)]
mod differences;
#[cfg(test)]
mod signs;
