// What a read or a write answers where the outside failed.

/// The outside failed. The object that answers it has counted the fault.
#[derive(Clone, Copy, Debug, PartialEq, Eq)]
pub struct Failed;
