//! Tests of the documents of files, in ample memory: what their choices pick.
//!
//! Each table has a row a line: a source, `⇒`, its choices, `⇒`, and the layout that they pick, which was worked out
//! from the style. Choices are told by `L` and `R`, none at all by `-`; where they pick no resolution that has a layout
//! the row says `unfit`. In sources and layouts `⏎` stands for LF and `␍` for CR. An application of two slots or more
//! drops by `L`, hangs by `RL` and is flat by `RR`, and the choices of the lists in it come behind its own.
#![tactic(auto)]

#[cfg(test)]
mod clauses;
#[cfg(test)]
mod comments;
#[cfg(test)]
mod graphs;
#[cfg(test)]
mod keys;
#[cfg(test)]
mod laying;
#[cfg(test)]
mod lines;
#[cfg(test)]
mod mixtures;
#[cfg(test)]
mod nested;
#[cfg(test)]
mod places;
#[cfg(test)]
mod prefixes;
#[cfg(test)]
mod quoting;
#[cfg(test)]
mod shapes;
#[cfg(test)]
mod sides;
#[cfg(test)]
mod table;
#[cfg(test)]
mod unfit;
