// The bytes of a file in memory, up to a limit.
ghost use Rattle.std.specs.Prelude.{◌≡◌, ◌≢◌, ◌+◌, ◌<◌, ◌≤◌, Err, [], take, vec_len, OnOk, OnErr, IsErrOf};

use crate::shelves::ShelfError;

// Copies the bytes into `into`, which is empty, if they are at most `limit`. Otherwise it copies one more
// than that.
pub(crate) fn copy_file(bytes: &[u8], limit: usize, into: &mut Vec<u8>) -> Result<(), ShelfError>
    requires empty { into.old.items ≡ [] }
    requires below { limit < usize.MAX }
    ensures ok { OnOk result (into.new.items ≡ bytes.now) }
    ensures within { OnOk result (vec_len into.new ≤ limit) }
    ensures front { OnErr result (into.new.items ≡ take (vec_len into.new) bytes.now) }
    ensures too_long { IsErrOf result ShelfError.TooLong → vec_len into.new ≡ limit + 1 }
    ensures no_fault { result ≢ Err ShelfError.Failed }
{
    let end = bytes.len().min(limit + 1);
    into.extend_from_slice(&bytes[..end])?;
    if end > limit {
        return Err(ShelfError::TooLong);
    }
    Ok(())
}
