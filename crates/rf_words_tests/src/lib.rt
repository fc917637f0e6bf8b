//! Tests of the words of the command line, in ample memory.
//!
//! Each table has a row a line: words with a bar between each two, `⇒`, and what they say, which was worked out from
//! the table of options. `∅` stands for no text, alone for no word. What they say is `refused`, or each option that
//! they say, with the number of jobs and the mode.
#![tactic(auto)]

#[cfg(test)]
mod rows;
#[cfg(test)]
mod telling;
