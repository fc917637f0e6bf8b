//! Tests of the program over the memory forms of the outside, in ample memory: what it answers, and that its jobs enter
//! the gate, run beside each other and don't change the answer.
#![tactic(auto)]

#[cfg(test)]
mod counting;
#[cfg(test)]
mod faults;
#[cfg(test)]
mod hostile;
#[cfg(test)]
mod meeting;
#[cfg(test)]
mod rows;
#[cfg(test)]
mod runs;
#[cfg(test)]
mod samples;
#[cfg(test)]
mod styles;
#[cfg(test)]
mod words;
