//! Tests of the program's edges: what no contract says of them, and each call once with ample memory.
#![tactic(auto)]

#[cfg(test)]
mod closed_files;
#[cfg(test)]
mod fakes;
#[cfg(test)]
mod reads;
#[cfg(test)]
mod shelf_reads;
#[cfg(test)]
mod system_edges;
#[cfg(test)]
mod writes;
