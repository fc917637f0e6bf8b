//! What comes before the choices of a way.

use crate::hows::HowId;
use rf_base_document::Dir;

/// What a new way puts before the choices of an older one.
#[derive(Clone, Copy)]
pub enum Before {
    /// This direction.
    Choice(Dir),
    /// The choices of this way.
    Way(HowId),
}
