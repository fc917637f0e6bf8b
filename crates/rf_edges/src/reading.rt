// Reading a source to its end.
ghost use Rattle.std.specs.Prelude.{◌≡◌, ℕ, ◌+◌, ◌-◌, ◌<◌, ◌≤◌, ◌↔◌, ◌⊎◌, true, false, List, ◌++◌, length, vec_len, IfOk, IfSome, OnOk, IsErrOf};
ghost use Rattle.std.specs.Io.KnownBytes.{Consumes, IsAtEnd};
ghost use Rattle.rf_edges.specs.Bytes.{Takes, TakesAtMost};
ghost use Rattle.rf_edges.specs.Faults.{Rose, Lasts};
ghost use Rattle.rf_edges.specs.declared.reading.ReadError.TheVariants.{Fault, Memory};

use crate::failures::Failed;
use crate::sources::Source;
use std::alloc::{AllocError, Global};
use thiserror::Error;

/// Why a source wasn't read to its end.
#[derive(Clone, Copy, Debug, PartialEq, Eq, Error)]
pub enum ReadError {
    /// A read failed. The source has counted the fault.
    #[error("the source failed")]
    Fault,
    /// The source has more bytes than the limit: one more than the limit were taken.
    #[error("the source is longer than the limit")]
    TooLong,
    /// There was no memory for the bytes.
    #[error("out of memory")]
    Memory(AllocError),
}

impl From<Failed> for ReadError {
    ghost from_gives = { λ _ e. e ≡ Fault };

    fn from(_failed: Failed) -> ReadError {
        ReadError::Fault
    }
}

impl From<AllocError> for ReadError {
    ghost from_gives = { λ x e. e ≡ Memory x };

    fn from(error: AllocError) -> ReadError {
        ReadError::Memory(error)
    }
}

// How many bytes one read asks for at most.
const BLOCK: usize = 65536;

/// All bytes that the source has left, if they are at most `limit`.
///
/// `ReadError::Fault` comes only where the source's count of faults rose. `ReadError::TooLong` comes
/// exactly where `limit + 1` bytes were taken, and no more are ever taken. `ReadError::Memory` is want of
/// memory. After an error the bytes that were taken are gone.
pub fn read_all<S: Source>(
    alloc: Global,
    source: &mut S,
    limit: usize,
) -> Result<Vec<u8>, ReadError>
    requires { limit < usize.MAX }

    // `Ok` holds all that was left, to its end.
    ensures whole { IfOk result (λ bytes. IfSome (S.left source.old) (λ all. bytes.items ≡ all)) }
    ensures end { OnOk result (IsAtEnd (S.left source.new)) }
    ensures within { IfOk result (λ bytes. vec_len bytes ≤ limit) }

    // When each refusal comes.
    ensures fault { IsErrOf result ReadError.Fault → Rose (S.faults source.old) (S.faults source.new) }
    ensures too_long { IfSome (S.left source.old) (λ _.
        IsErrOf result ReadError.TooLong ↔ Takes (S.left source.old) (S.left source.new) (limit + 1)) }
    ensures long { IfSome (S.left source.old) (λ all.
        IsErrOf result ReadError.TooLong → limit < length all) }

    // What is taken in every case.
    ensures taken { TakesAtMost (S.left source.old) (S.left source.new) (limit + 1) }
    ensures lasting { Lasts (S.faults source.old) (S.faults source.new) }
{
    let mut block = make_block(alloc)?;
    let mut bytes = Vec::new(alloc);
    'reads: loop {
        if !take_block(source, block.as_mut_slice(), &mut bytes, limit)? {
            return Ok(bytes);
        }
    }
}

// Room for the bytes of one read.
pub(crate) fn make_block(alloc: Global) -> Result<Vec<u8>, AllocError>
    ensures { IfOk result (λ block. 0 < vec_len block) }
{
    vec![in alloc; 0u8; BLOCK]
}

// One read of at most a block, which asks for no more than what shows that the limit is passed. It puts
// what came behind `bytes`, and tells whether anything came.
fn take_block<S: Source>(
    source: &mut S,
    block: &mut [u8],
    bytes: &mut Vec<u8>,
    limit: usize,
) -> Result<bool, ReadError>
    requires room { 0 < length block.old }
    requires below { limit < usize.MAX }
    requires within { vec_len bytes.old ≤ limit }
    ensures ok { IfOk result (λ _. (piece : List ℕ) × (bytes.new.items ≡ bytes.old.items ++ piece)
        × Consumes (S.left source.old) (S.left source.new) piece) }
    ensures more { result ≡ Ok true → vec_len bytes.old < vec_len bytes.new }
    ensures done { result ≡ Ok false → IsAtEnd (S.left source.new) × (bytes.new.items ≡ bytes.old.items) }
    ensures fits { OnOk result (vec_len bytes.new ≤ limit) }
    ensures fault { IsErrOf result ReadError.Fault → Rose (S.faults source.old) (S.faults source.new) }
    ensures too_long { IsErrOf result ReadError.TooLong
        → Takes (S.left source.old) (S.left source.new) (limit + 1 - vec_len bytes.old) }
    ensures taken { IsErrOf result ReadError.TooLong
        ⊎ TakesAtMost (S.left source.old) (S.left source.new) (limit - vec_len bytes.old) }
    ensures lasting { Lasts (S.faults source.old) (S.faults source.new) }
{
    let room = limit - bytes.len();
    let wanted = (room + 1).min(block.len());
    let count = source.read(&mut block[..wanted])?;
    if count == 0 {
        return Ok(false);
    }
    if count > room {
        return Err(ReadError::TooLong);
    }
    bytes.extend_from_slice(&block[..count])?;
    Ok(true)
}
