//! How the nodes of a graph are kept.

ghost use Rattle.std.specs.Prelude.{◌≡◌, IfOk};

use crate::nodes::NodeId;
use std::alloc::AllocError;

/// A node as it is kept, in 16 bytes: a part is a node's number in 32 bits.
#[derive(Drop)]
pub enum Stored {
    /// Where the text begins in the store and how many bytes it takes up there, and its columns.
    Text { start: u32, len: u32, width: u32 },
    /// A line break, or one space where flat.
    Newline,
    /// A line break, which has no layout where flat.
    Hard,
    /// The first part and then the second.
    Concat(u32, u32),
    /// The part with this many more columns of indentation, which stand first.
    Nest(u32, u32),
    /// The part with its own column as indentation.
    Align(u32),
    /// The part with no indentation.
    Reset(u32),
    /// The part with each of its newlines flat.
    Flatten(u32),
    /// The first part or the second.
    Choice(u32, u32),
    /// The part for an added cost, which stands first.
    Charge(u32, u32),
}

/// A node's number as a part is kept. An `AllocError` comes where it doesn't fit: a graph of so many
/// nodes has no room for another one.
pub fn as_part(n: NodeId) -> Result<u32, AllocError>
    ensures { IfOk result (λ part. part ≡ n.0) }
{
    place(n.0)
}

/// A place among many as it is kept, in 32 bits. An `AllocError` comes where it doesn't fit: there is no room for
/// another one.
pub fn place(n: usize) -> Result<u32, AllocError>
    ensures { IfOk result (λ place. place ≡ n) }
{
    match u32::try_from(n) {
        Ok(narrow) => Ok(narrow),
        Err(_) => Err(AllocError),
    }
}
