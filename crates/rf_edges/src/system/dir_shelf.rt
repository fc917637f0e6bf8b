// A shelf over the files of the system.
ghost use Rattle.std.specs.Prelude.{◌≡◌, ℕ, ◌+◌, ◌-◌, ◌<◌, ◌≤◌, ◌≢◌, true, false, Ok, Err, List, [], ◌++◌, length, take, vec_len, IfOk, IfSome, OnOk, OnErr, IsErrOf};
ghost use Rattle.std.specs.Io.KnownBytes.{Consumes, IsAtEnd};
ghost use Rattle.rf_edges.specs.Faults.{Rose, Lasts};
ghost use Rattle.rf_edges.specs.Files.{Untold, IsWhole, IsFront};

use crate::reading::make_block;
use crate::shelves::{Shelf, ShelfError};
use crate::sources::Source;
use crate::system::counting::count_faults;
use crate::system::std_source::StdSource;
use std::fs;
use std::marker::Model;
use std::rt::Files;

/// A shelf over the files of the system: a name is a path, which is opened as given. It tells nothing of its files, and
/// counts a fault at each error, also where a signal interrupts a read, which is then made again. Its one count of
/// faults is that of every name.
#[derive(Drop)]
pub struct DirShelf<'r, R: Files> {
    rt: &'r R,
    faults: u64,
}

impl<'r, R: Files> Model for DirShelf<'r, R> {
    ghost use Rattle.std.specs.Prelude.{ℕ};

    ghost Value = { ℕ };

    ghost view = { λ s. s.faults };
}

impl<'r, R: Files> DirShelf<'r, R> {
    /// A shelf over the files that this runtime opens, without a fault yet.
    pub fn new(rt: &'r R) -> DirShelf<'r, R>
        ensures { result ≡ 0 }
    {
        DirShelf { rt, faults: 0 }
    }
}

impl<'r, R: Files> Shelf for DirShelf<'r, R> {
    ghost file = { λ _ _. Untold };

    ghost faults = { λ s _. s };

    fn read_file(&mut self, name: &str, limit: usize, into: &mut Vec<u8>) -> Result<(), ShelfError>
        requires empty { into.old.items ≡ [] }
        requires below { limit < usize.MAX }

        // What every shelf does.
        ensures ok { OnOk result (IsWhole Untold into.new.items) }
        ensures within { OnOk result (vec_len into.new ≤ limit) }
        ensures front { OnErr result (IsFront Untold into.new.items) }
        ensures too_long { IsErrOf result ShelfError.TooLong → vec_len into.new ≡ limit + 1 }
        ensures cause { IsErrOf result ShelfError.Failed → Rose self.old self.new }
        ensures lasting { List ℕ → Lasts self.old self.new }
        ensures unchanged { List ℕ → Untold ≡ Untold }
    {
        let Ok(file) = fs::open(self.rt, name) else {
            count_faults(&mut self.faults, 1);
            return Err(ShelfError::Failed);
        };
        let mut source = StdSource::new(file);
        let answer = read_whole(&mut source, limit, into);
        count_faults(&mut self.faults, source.faults());
        answer
    }
}

// Reads what is left into `into`, which is empty, if that is at most `limit` bytes. Otherwise it reads one
// byte more than that.
fn read_whole<S: Source>(source: &mut S, limit: usize, into: &mut Vec<u8>) -> Result<(), ShelfError>
    requires empty { into.old.items ≡ [] }
    requires below { limit < usize.MAX }
    ensures whole { OnOk result (IfSome (S.left source.old) (λ all. into.new.items ≡ all)) }
    ensures within { OnOk result (vec_len into.new ≤ limit) }
    ensures front { IfSome (S.left source.old) (λ all.
        into.new.items ≡ take (length into.new.items) all) }
    ensures too_long { IsErrOf result ShelfError.TooLong → vec_len into.new ≡ limit + 1 }
    ensures cause { IsErrOf result ShelfError.Failed → Rose (S.faults source.old) (S.faults source.new) }
{
    let mut block = make_block(*into.allocator())?;
    'reads: while into.len() <= limit {
        if !push_block(source, block.as_mut_slice(), limit, into)? {
            return Ok(());
        }
    }
    Err(ShelfError::TooLong)
}

// One read of at most a block, which asks for no more than one byte past the limit. It puts what came
// behind `into`, and tells whether anything came.
fn push_block<S: Source>(
    source: &mut S,
    block: &mut [u8],
    limit: usize,
    into: &mut Vec<u8>,
) -> Result<bool, ShelfError>
    requires room { 0 < length block.old }
    requires below { limit < usize.MAX }
    requires within { vec_len into.old ≤ limit }
    ensures ok { IfOk result (λ _. (piece : List ℕ) × (into.new.items ≡ into.old.items ++ piece)
        × Consumes (S.left source.old) (S.left source.new) piece) }
    ensures more { result ≡ Ok true → vec_len into.old < vec_len into.new }
    ensures done { result ≡ Ok false → IsAtEnd (S.left source.new) × (into.new.items ≡ into.old.items) }
    ensures fits { OnOk result (vec_len into.new ≤ limit + 1) }
    ensures err { OnErr result (into.new.items ≡ into.old.items) }
    ensures too_long { result ≢ Err ShelfError.TooLong }
    ensures cause { IsErrOf result ShelfError.Failed → Rose (S.faults source.old) (S.faults source.new) }
    ensures lasting { Lasts (S.faults source.old) (S.faults source.new) }
{
    let wanted = (limit - into.len() + 1).min(block.len());
    let count = source.read(&mut block[..wanted])?;
    into.extend_from_slice(&block[..count])?;
    Ok(count > 0)
}
