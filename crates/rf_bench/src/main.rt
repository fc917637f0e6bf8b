//! Workloads for bench/run, each named by its word.
#![tactic(auto)]

mod documents;
mod frontiers;
mod joining;
mod resolving;
mod rows;
mod searching;
mod trees;
mod values;
mod workloads;

use documents::{build, lay_out, simplify_one};
use frontiers::frontiers;
use resolving::resolve_one;
use searching::search_one;
use std::alloc::Global;
use std::env;
use std::test::Fail;
use workloads::named;

// Runs the workload that the first word names, `build` where there is none, and says how much it was. A document that
// is resolved is searched where `search-` stands before its name; a second word that is a number is its size.
fn main(rt: HostRuntime) -> Result<(), Fail> {
    let mut word = String::from_str(rt.alloc(), "build")?;
    for given in env::args(&rt)?.skip(1).take(1) {
        word = given;
    }
    let mut size = None;
    for given in env::args(&rt)?.skip(2).take(1) {
        size = given.parse::<u32>().ok();
    }
    let line = match word.as_str().strip_prefix("search-") {
        Some(name) => searched(rt.alloc(), name, size)?,
        None => resolved(rt.alloc(), word.as_str(), size)?,
    };
    println!(rt; "{line}")?;
    Ok(())
}

// Searches the document that the word names.
fn searched(alloc: Global, word: &str, size: Option<u32>) -> Result<String, Fail> {
    match named(word) {
        Some((workload, usual, limit)) => search_one(alloc, workload, size.unwrap_or(usual), limit),
        None => Err(Fail::new("no such document")),
    }
}

// Resolves the document that the word names, or does the workload of another kind.
fn resolved(alloc: Global, word: &str, size: Option<u32>) -> Result<String, Fail> {
    match named(word) {
        Some((workload, usual, limit)) => {
            resolve_one(alloc, workload, size.unwrap_or(usual), limit)
        }
        None => counted(alloc, word),
    }
}

// Does a workload of another kind, and says how many nodes, characters or measures it was.
fn counted(alloc: Global, word: &str) -> Result<String, Fail> {
    let count = match word {
        "simplify" => simplify_one(alloc)? as u64,
        "render" => lay_out(alloc)? as u64,
        "frontiers-1" => frontiers(alloc, 1, 333_333)?,
        "frontiers-10" => frontiers(alloc, 10, 33_333)?,
        "frontiers-100" => frontiers(alloc, 100, 3_333)?,
        _ => build(alloc)? as u64,
    };
    Ok(format!(in alloc; "{count}")?)
}
