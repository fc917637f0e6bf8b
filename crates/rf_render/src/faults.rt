//! Why a resolution isn't laid out.

use rf_walk::LayoutError;
use std::alloc::AllocError;

/// Why a resolution isn't laid out.
#[derive(Clone, Copy, Debug, PartialEq, Eq)]
pub enum RenderError {
    /// The layout has more than 67,108,864 characters, or the resolution more texts, line breaks and
    /// choices than that.
    TooLong,
    /// Memory ran out.
    Memory(AllocError),
}

impl From<LayoutError> for RenderError {
    ghost use Rattle.std.specs.Prelude.{◌≡◌};
    ghost use Rattle.rf_render.specs.Faults.{render_error};

    ghost from_gives = { λ fault e. e ≡ render_error fault };

    fn from(fault: LayoutError) -> RenderError {
        match fault {
            LayoutError::TooLong => RenderError::TooLong,
            LayoutError::Memory(fault) => RenderError::Memory(fault),
        }
    }
}
