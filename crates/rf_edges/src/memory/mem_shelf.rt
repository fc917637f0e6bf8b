// A shelf of files in memory, some of whose reads fail.
ghost use Rattle.std.specs.Prelude.{◌≡◌, ◌≢◌, ℕ, ◌+◌, ◌<◌, ◌≤◌, ◌↔◌, ◌⊎◌, Err, List, [], vec_len, map, Contains, OnOk, OnErr, IsErrOf, MatchOption};
ghost use Rattle.rf_edges.specs.Faults.{Rose, Lasts, next_count};
ghost use Rattle.rf_edges.specs.Files.{Absent, Bytes, IsWhole, IsFront, named_bytes, file_of};

use crate::memory::copies::copy_file;
use crate::memory::fault_plan::FaultPlan;
use crate::shelves::{Shelf, ShelfError};
use std::marker::Model;

/// A shelf of files in memory, some of whose calls fail. Its one count of faults is that of every name.
#[derive(Drop)]
pub struct MemShelf {
    files: Vec<(String, Vec<u8>)>,
    plan: FaultPlan,
}

impl Model for MemShelf {
    ghost use Rattle.std.specs.Prelude.{map};
    ghost use Rattle.rf_edges.specs.Held.{Cabinet};
    ghost use Rattle.rf_edges.specs.Files.{named_bytes};

    ghost Value = { Cabinet };

    ghost view = { λ s. record {
      files = map named_bytes s.files.items;
      calls = s.plan.calls;
      fails = s.plan.fails;
      faults = s.plan.faults;
    } };
}

impl MemShelf {
    /// The files, by name. Of files with one name only the first is there. The calls whose numbers, from 1,
    /// stand in `fails` fail, and so does a call with a name that isn't there.
    pub fn new(files: Vec<(String, Vec<u8>)>, fails: Vec<u32>) -> MemShelf
        ensures files { result.files ≡ map named_bytes files.items }
        ensures calls { result.calls ≡ 0 }
        ensures fails { result.fails ≡ fails.items }
        ensures faults { result.faults ≡ 0 }
    {
        MemShelf {
            files,
            plan: FaultPlan::new(fails),
        }
    }
}

impl Shelf for MemShelf {
    ghost file = { λ s name. file_of s.files name };

    ghost faults = { λ s _. s.faults };

    fn read_file(&mut self, name: &str, limit: usize, into: &mut Vec<u8>) -> Result<(), ShelfError>
        requires empty { into.old.items ≡ [] }
        requires below { limit < usize.MAX }

        // What every shelf does.
        ensures ok { OnOk result (IsWhole (file_of self.old.files name.now) into.new.items) }
        ensures within { OnOk result (vec_len into.new ≤ limit) }
        ensures front { OnErr result (IsFront (file_of self.old.files name.now) into.new.items) }
        ensures too_long { IsErrOf result ShelfError.TooLong → vec_len into.new ≡ limit + 1 }
        ensures cause { IsErrOf result ShelfError.Failed → Rose self.old.faults self.new.faults }
        ensures lasting { List ℕ → Lasts self.old.faults self.new.faults }
        ensures unchanged { (other : List ℕ)
            → file_of self.new.files other ≡ file_of self.old.files other }

        // When this one fails, and how it goes on.
        ensures failing { IsErrOf result ShelfError.Failed
            ↔ (Contains self.old.fails (next_count self.old.calls)
            ⊎ (file_of self.old.files name.now ≡ Absent)) }
        ensures fault { IsErrOf result ShelfError.Failed → self.new.faults ≡ next_count self.old.faults }
        ensures no_fault { result ≢ Err ShelfError.Failed → self.new.faults ≡ self.old.faults }
        ensures files { self.new.files ≡ self.old.files }
        ensures calls { self.new.calls ≡ next_count self.old.calls }
        ensures fails { self.new.fails ≡ self.old.fails }
    {
        if self.plan.next_fails() {
            return Err(ShelfError::Failed);
        }
        match find_file(&self.files, name) {
            Some(bytes) => copy_file(bytes, limit, into),
            None => {
                self.plan.count_fault();
                Err(ShelfError::Failed)
            }
        }
    }
}

// The bytes of the first file of this name.
fn find_file<'a>(files: &'a [(String, Vec<u8>)], name: &str) -> Option<&'a [u8]>
    ensures { MatchOption result (file_of (map named_bytes files.entry.now) name.now ≡ Absent)
        (λ bytes. file_of (map named_bytes files.entry.now) name.now ≡ Bytes bytes.now) }
{
    for (file_name, bytes) in files {
        if file_name.as_str() == name {
            return Some(bytes.as_slice());
        }
    }
    None
}
