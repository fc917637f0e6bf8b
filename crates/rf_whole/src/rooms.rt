//! Room that one passage of a source after another uses.

use crate::tasks::Drawer;
use rf_tree::Trees;
use std::alloc::{AllocError, Global};

/// What one passage after another uses: each puts its own in place of what the one before left there.
#[derive(Drop)]
pub struct Room<C: Copy> {
    /// The trees of the passage.
    pub trees: Trees,
    /// What its forms use.
    pub drawer: Drawer<C>,
}

impl<C: Copy> Room<C> {
    /// Nothing. It takes no memory.
    pub fn new(alloc: Global) -> Room<C> {
        Room {
            trees: Trees::none(alloc),
            drawer: Drawer::new(alloc),
        }
    }
}

/// Takes so many bytes and gives them back. From then on the C library keeps up to twice as much free room at the end
/// of the heap, and doesn't give it back to the system, which takes time.
pub fn keep_room(alloc: Global, bytes: usize) {
    let room: Result<Vec<u8>, AllocError> = Vec::with_capacity(alloc, bytes);
    drop(room);
}
