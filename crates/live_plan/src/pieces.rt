//! The bytes of a script cut into pieces as they are read.

ghost use Rattle.std.specs.Prelude.{◌≡◌, [], IfOk};
ghost use Rattle.live_plan.specs.Pieces.{turned as turned_by};
ghost use Rattle.live_plan.specs.Private.Cutting.{IsFound, IsTakenUp};

use std::alloc::Global;
use std::marker::Model;
use sub_base::NoMemory;

/// The piece in hand, in memory that grows with it: the bytes that were read of it.
#[derive(Drop)]
pub(crate) struct Cutter {
    bytes: Vec<u8>,
    is_quoted: bool,
}

impl Model for Cutter {
    ghost use Rattle.std.specs.Prelude.{◌≡◌, List, ℕ};
    ghost use Rattle.live_plan.specs.Pieces.{is_quoted as leaves_quoted};

    ghost Value = { List ℕ };

    ghost view = { λ cutter. cutter.bytes.items };

    ghost invariant = { λ cutter. cutter.is_quoted ≡ leaves_quoted cutter.bytes.items };
}

impl Cutter {
    /// No piece was begun. Takes no memory.
    pub(crate) fn make(alloc: Global) -> Cutter
        ensures { result ≡ [] }
    {
        Cutter {
            bytes: Vec::new(alloc),
            is_quoted: false,
        }
    }

    /// Takes bytes up to the end of the piece in hand, and answers how many these were; all of
    /// them, and `None`, where the piece goes on behind them.
    pub(crate) fn take(&mut self, bytes: &[u8]) -> Result<Option<usize>, NoMemory>
        ensures taken { IfOk result (IsTakenUp self.old self.new bytes.now) }
    {
        match end_of(self.is_quoted, bytes) {
            PieceEnd::Behind(count) => {
                self.bytes.extend_from_slice(&bytes[..count])?;
                self.is_quoted = false;
                Ok(Some(count))
            }
            PieceEnd::Later { is_quoted } => {
                self.bytes.extend_from_slice(bytes)?;
                self.is_quoted = is_quoted;
                Ok(None)
            }
        }
    }

    /// The bytes of the piece in hand.
    pub(crate) fn piece(&self) -> &[u8]
        ensures { result.now ≡ self.now }
    {
        self.bytes.as_slice()
    }

    /// Begins a piece anew.
    pub(crate) fn clear(&mut self)
        ensures { self.new ≡ [] }
    {
        self.bytes.clear();
        self.is_quoted = false;
    }
}

/// Where a piece ends that goes on with further bytes.
#[derive(Clone, Copy)]
pub(crate) enum PieceEnd {
    /// With the last of so many of these.
    Behind(usize),
    /// Not in these, and what follows them stands within quotation marks or not.
    Later { is_quoted: bool },
}

/// Looks for the end of a piece of which so much came before that what follows stands within
/// quotation marks or not.
fn end_of(was_quoted: bool, bytes: &[u8]) -> PieceEnd
    ensures { IsFound was_quoted bytes.now result }
{
    let mut is_quoted = was_quoted;
    for (place, byte) in bytes.iter().enumerate() {
        if *byte == b'\n' && !is_quoted {
            return PieceEnd::Behind(place + 1);
        }
        is_quoted = turned(is_quoted, *byte);
    }
    PieceEnd::Later { is_quoted }
}

/// Whether what follows the byte stands within quotation marks.
fn turned(is_quoted: bool, byte: u8) -> bool
    ensures { result ≡ turned_by is_quoted byte }
{
    if byte == b'"' { !is_quoted } else { is_quoted }
}
