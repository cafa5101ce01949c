ghost use Rattle.std.specs.Prelude.{◌≡◌};
ghost use Rattle.bitmap_font.specs.declared.font_fault.FontFault.TheVariants.{Memory};

use std::alloc::{AllocError, AllocFailed};
use thiserror::Error;

/// Why bytes are no font.
#[derive(Clone, Copy, Debug, PartialEq, Eq, Error)]
pub enum FontFault {
    /// No memory was found.
    #[error("out of memory")]
    Memory,
    /// The first faulty line, counted from 1, and the first of its tests that fails.
    #[error("line {line}: {kind}")]
    Refused { line: u64, kind: FontKind },
}

/// What is wrong with a line of a font.
#[derive(Clone, Copy, Debug, PartialEq, Eq, Error)]
pub enum FontKind {
    /// A word is missing, or stands where it may not.
    #[error("not in the format BDF 2.1")]
    NotBdf,
    /// A number is missing, is none or is out of range.
    #[error("no number in range")]
    BadNumber,
    /// A row of a bitmap has other characters or another length.
    #[error("no row of a bitmap")]
    BadRow,
    /// A character is encoded a second time.
    #[error("a second glyph of a character")]
    DoubleGlyph,
    /// The file ends before the font does.
    #[error("the font has no end")]
    Truncated,
    /// The font has more than 65,536 glyphs.
    #[error("too many glyphs")]
    TooLarge,
}

impl From<AllocError> for FontFault {
    ghost from_gives = { λ _ fault. fault ≡ Memory };

    fn from(_error: AllocError) -> FontFault {
        FontFault::Memory
    }
}

impl<T: Drop> From<AllocFailed<T>> for FontFault {
    ghost from_gives = { λ _ fault. fault ≡ Memory };

    fn from(_error: AllocFailed<T>) -> FontFault {
        FontFault::Memory
    }
}
