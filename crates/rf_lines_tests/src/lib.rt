//! Tests of lines that are written from trees, in ample memory, in the style without a style file.
//!
//! The table has a row a line: how many columns the line may have, `⇒`, a source, `⇒`, and the choices and the line of
//! its first slot, which were worked out from the style, or `no`, where none is written, as where the source isn't
//! spaced as the line is. Choices are told by `L` and `R`, none at all by `-`. In sources `⏎` stands for LF. An
//! application of two slots hangs by `RL`, one of three or more is flat by `RR`, and what is flat goes `L`; the choices
//! of the lists in it come behind its own. A second table has the first node of each source, and behind its choices
//! those where all is flat.
#![tactic(auto)]

#[cfg(test)]
mod laying;
#[cfg(test)]
mod rows;
