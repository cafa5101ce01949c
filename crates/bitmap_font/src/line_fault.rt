ghost use Rattle.std.specs.Prelude.{◌≡◌};
ghost use Rattle.bitmap_font.specs.declared.line_fault.LineFault.TheVariants.{Memory};

use crate::font_fault::FontKind;
use std::alloc::{AllocError, AllocFailed};

/// Why a line was not taken.
#[derive(Clone, Copy)]
pub(crate) enum LineFault {
    Memory,
    Wrong(FontKind),
}

impl From<AllocError> for LineFault {
    ghost from_gives = { λ _ fault. fault ≡ Memory };

    fn from(_error: AllocError) -> LineFault {
        LineFault::Memory
    }
}

impl<T: Drop> From<AllocFailed<T>> for LineFault {
    ghost from_gives = { λ _ fault. fault ≡ Memory };

    fn from(_error: AllocFailed<T>) -> LineFault {
        LineFault::Memory
    }
}
