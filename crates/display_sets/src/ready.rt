//! A set that is ready, as it is lent.

ghost use Rattle.std.specs.Prelude.{◌≡◌};

use crate::hand::Head;
use decoder_model::SetFault;

/// A display set that is ready.
#[derive(Clone, Copy, Debug, PartialEq, Eq)]
pub struct Ready<'a> {
    /// Its presentation time as read, in ticks of 90 kHz modulo 2^33.
    pub time: u64,
    /// How many bytes its PES packets have, up to the one with its end.
    pub size: u64,
    /// The bytes of its segments, one after another, or why it is refused.
    pub segments: Result<&'a [u8], SetFault>,
}

impl Head {
    ghost use Rattle.std.specs.Prelude.{◌≡◌, IfOk};
    ghost use Rattle.display_sets.specs.Gathered.{ready_set};
    ghost use Rattle.display_sets.specs.Lent.{lent};

    /// The set with these bytes.
    pub(crate) fn lend(self, bytes: &[u8]) -> Ready<'_>
        ensures set { lent result ≡ ready_set bytes.now self }
        ensures bytes { IfOk result.segments (λ segments. segments.now ≡ bytes.now) }
    {
        let segments = match self.fault {
            None => Ok(bytes),
            Some(fault) => Err(fault),
        };
        Ready {
            time: self.time,
            size: self.size,
            segments,
        }
    }
}
