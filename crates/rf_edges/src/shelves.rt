// What files are read from, by name.
ghost use Rattle.std.specs.Prelude.{◌≡◌, ℕ, ◌+◌, ◌<◌, ◌≤◌, List, [], vec_len, OnOk, OnErr, IsErrOf};
ghost use Rattle.rf_edges.specs.Faults.{Rose, Lasts};
ghost use Rattle.rf_edges.specs.Files.{File, IsWhole, IsFront};
ghost use Rattle.rf_edges.specs.declared.shelves.ShelfError.TheVariants.{Failed as Fault, Memory};

use crate::failures;
use std::alloc::AllocError;

/// Why a file wasn't read whole.
#[derive(Clone, Copy, Debug, PartialEq, Eq)]
pub enum ShelfError {
    /// The file has more bytes than the limit: one more than the limit were read.
    TooLong,
    /// There is no such file, or a read failed. The shelf has counted the fault.
    Failed,
    /// There was no memory for the bytes.
    Memory(AllocError),
}

impl From<failures::Failed> for ShelfError {
    ghost from_gives = { λ _ e. e ≡ Fault };

    fn from(_failed: failures::Failed) -> ShelfError {
        ShelfError::Failed
    }
}

impl From<AllocError> for ShelfError {
    ghost from_gives = { λ x e. e ≡ Memory x };

    fn from(error: AllocError) -> ShelfError {
        ShelfError::Memory(error)
    }
}

/// Files are read from a shelf, whole and by name.
pub trait Shelf {
    // The file of the name with these bytes: its bytes, or that there is none, where the shelf tells that.
    ghost file: { Self → List ℕ → File };

    // How many faults there were at the name with these bytes: a count of 64 bits that never falls, and
    // stands still at its end.
    ghost faults: { Self → List ℕ → ℕ };

    /// Reads the file of this name into `into`, which is empty, if it has at most `limit` bytes.
    ///
    /// `ShelfError::TooLong` comes only where `into` holds `limit + 1` bytes, the first of the file.
    /// `ShelfError::Failed` comes only where the faults of this name rose in this call.
    /// `ShelfError::Memory` is want of memory. After each of them `into` holds a prefix of the file.
    ///
    /// The files never change.
    fn read_file(&mut self, name: &str, limit: usize, into: &mut Vec<u8>) -> Result<(), ShelfError>
        requires empty { into.old.items ≡ [] }
        requires below { limit < usize.MAX }

        // What `into` holds.
        ensures ok { OnOk result (IsWhole (file self.old name.now) into.new.items) }
        ensures within { OnOk result (vec_len into.new ≤ limit) }
        ensures front { OnErr result (IsFront (file self.old name.now) into.new.items) }

        // When each refusal comes.
        ensures too_long { IsErrOf result ShelfError.TooLong → vec_len into.new ≡ limit + 1 }
        ensures cause { IsErrOf result ShelfError.Failed
            → Rose (faults self.old name.now) (faults self.new name.now) }

        // At each name.
        ensures lasting { (other : List ℕ) → Lasts (faults self.old other) (faults self.new other) }
        ensures unchanged { (other : List ℕ) → file self.new other ≡ file self.old other };
}
