//! How the nodes of trees are stored.

ghost use Rattle.std.specs.Prelude.{◌≡◌, IfOk};

use crate::nodes::At;
use std::alloc::AllocError;

/// Some of the nodes that nodes name, among all of these.
#[derive(Clone, Copy, Debug)]
pub struct Part {
    /// How many stand before them.
    pub from: u32,
    /// How many they are.
    pub count: u32,
}

/// A node as it is stored, in 20 bytes: items and nodes are numbers of 32 bits.
#[derive(Clone, Copy, Debug)]
pub enum Stored {
    /// An item by itself.
    Leaf(u32),
    /// A prefix, its lead and its datum.
    Prefixed(u32, Part, At),
    /// A list's opener, its entries and its closer.
    List(u32, Part, u32),
    /// A comment of one item.
    Comment(u32),
    /// A skip, its lead and its datum.
    DatumComment(u32, Part, At),
}

/// A number as it is stored, in 32 bits. An `AllocError` comes where it doesn't fit: there is no room for another one.
pub fn place(n: usize) -> Result<u32, AllocError>
    ensures { IfOk result (λ place. place ≡ n) }
{
    match u32::try_from(n) {
        Ok(narrow) => Ok(narrow),
        Err(_) => Err(AllocError),
    }
}
