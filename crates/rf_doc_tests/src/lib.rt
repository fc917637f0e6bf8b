//! Tests of the document graph, in ample memory.
#![tactic(auto)]

#[cfg(test)]
mod graph_tests;
