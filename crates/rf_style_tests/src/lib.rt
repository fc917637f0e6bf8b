//! Tests of styles, in ample memory: the default style, and what style files say.
//!
//! Each table has a row a line: a style file, `⇒`, and what it says, which was worked out by hand. `⏎` stands for LF.
//! What it says is the refusal, or the page width, the computation width, the kept blank lines, the costs, the columns
//! and the number of names, and then, behind a bar each, the place, name, shape, headers, bodies on one line and
//! charges of each name whose rule isn't the default one.
#![tactic(auto)]

#[cfg(test)]
mod files;
#[cfg(test)]
mod heads;
#[cfg(test)]
mod telling;
