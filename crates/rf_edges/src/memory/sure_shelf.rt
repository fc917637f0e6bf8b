// A shelf on which each name is a file of the same bytes.
ghost use Rattle.std.specs.Prelude.{◌≡◌, ℕ, ◌+◌, ◌<◌, ◌≤◌, List, [], vec_len, OnOk, OnErr, IsErrOf};
ghost use Rattle.rf_edges.specs.Faults.{Rose, Lasts};
ghost use Rattle.rf_edges.specs.Files.{Bytes, IsWhole, IsFront};

use crate::memory::copies::copy_file;
use crate::shelves::{Shelf, ShelfError};
use std::marker::Model;

/// A shelf on which every name is a file of the same bytes, and that never fails: its count of faults is
/// the constant 0.
#[derive(Drop)]
pub struct SureShelf {
    bytes: Vec<u8>,
}

impl Model for SureShelf {
    ghost use Rattle.std.specs.Prelude.{ℕ, List};

    ghost Value = { List ℕ };

    ghost view = { λ s. s.bytes.items };
}

impl SureShelf {
    /// Every name is a file of these bytes.
    pub fn new(bytes: Vec<u8>) -> SureShelf
        ensures { result ≡ bytes.items }
    {
        SureShelf { bytes }
    }
}

impl Shelf for SureShelf {
    ghost file = { λ s _. Bytes s };

    ghost faults = { λ _ _. 0 };

    fn read_file(&mut self, _name: &str, limit: usize, into: &mut Vec<u8>) -> Result<(), ShelfError>
        requires empty { into.old.items ≡ [] }
        requires below { limit < usize.MAX }

        // What every shelf does.
        ensures ok { OnOk result (IsWhole (Bytes self.old) into.new.items) }
        ensures within { OnOk result (vec_len into.new ≤ limit) }
        ensures front { OnErr result (IsFront (Bytes self.old) into.new.items) }
        ensures too_long { IsErrOf result ShelfError.TooLong → vec_len into.new ≡ limit + 1 }
        ensures cause { IsErrOf result ShelfError.Failed → Rose 0 0 }
        ensures lasting { List ℕ → Lasts 0 0 }
        ensures unchanged { List ℕ → Bytes self.new ≡ Bytes self.old }

        // This one stays as it is.
        ensures same { self.new ≡ self.old }
    {
        copy_file(&self.bytes, limit, into)
    }
}
