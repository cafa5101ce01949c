ghost use Rattle.std.specs.Prelude.{◌≡◌};
ghost use Rattle.bitmap_font.specs.declared.set_fault.SetFault.TheVariants.{Memory};

use std::alloc::{AllocError, AllocFailed};
use thiserror::Error;

/// Why a text has no picture in a font.
#[derive(Clone, Copy, Debug, PartialEq, Eq, Error)]
pub enum SetFault {
    /// No memory was found.
    #[error("out of memory")]
    Memory,
    /// The first character, other than a line feed, that has no glyph.
    #[error("no glyph for {0:?}")]
    MissingGlyph(char),
    /// The picture would have no width.
    #[error("nothing to set")]
    Empty,
    /// The picture would be wider than 1,920 or higher than 1,080 pixels.
    #[error("too wide or too high")]
    TooWide,
}

impl From<AllocError> for SetFault {
    ghost from_gives = { λ _ fault. fault ≡ Memory };

    fn from(_error: AllocError) -> SetFault {
        SetFault::Memory
    }
}

impl<T: Drop> From<AllocFailed<T>> for SetFault {
    ghost from_gives = { λ _ fault. fault ≡ Memory };

    fn from(_error: AllocFailed<T>) -> SetFault {
        SetFault::Memory
    }
}
