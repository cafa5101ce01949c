//! What is found of the display sets of a stream, one after the other.

ghost use Rattle.std.specs.Prelude.{◌≡◌};
ghost use Rattle.splice.specs.Private.Surveys.{found_after, found_with, is_good as is_good_finding, lost_after, nothing_found};
ghost use Rattle.splice.specs.Private.Surveys.{is_shown as is_shown_end};

use crate::part::Part;
use decoder_model::SetEnd;
use stream_syntax::PacketFault;

/// What keeps a stream from being joined.
#[derive(Clone, Copy)]
pub(crate) enum Finding {
    /// Nothing so far.
    Good,
    /// The set of that number, from 0, is the first that has to be shown and is not; nothing is
    /// lost.
    Unshown(u64),
    /// The packet of that number, from 0, is the first with which something is lost.
    Lost(u64),
}

/// What is found of a stream so far.
#[derive(Clone, Copy)]
pub(crate) struct Found {
    pub finding: Finding,
    /// How many sets there were, where nothing keeps the stream from being joined.
    pub sets: u64,
    /// Whether the first of them is a mode change.
    pub anew: bool,
    /// The lifted time of the first set that is kept, in ticks.
    pub begin: Option<u64>,
}

/// What came of going through the packets of a stream.
#[derive(Clone, Copy, Drop)]
pub(crate) enum Survey {
    /// The packet of that number, from 0, is the first that cannot be taken.
    Refused { packet: u64, fault: PacketFault },
    /// Each packet was taken, and this was found.
    Whole(Found),
}

/// A set before a receiver takes it: its lifted time, the time at which it is kept where it is
/// whole, and whether it is a mode change.
#[derive(Clone, Copy)]
pub(crate) struct Glimpse {
    pub lifted: Option<u64>,
    pub kept: Option<u64>,
    pub anew: bool,
}

impl Found {
    /// Nothing was found so far.
    pub fn nothing() -> Found
        ensures { result ≡ nothing_found }
    {
        Found {
            finding: Finding::Good,
            sets: 0,
            anew: false,
            begin: None,
        }
    }

    /// Whether nothing keeps the stream from being joined.
    pub fn is_good(self) -> bool
        ensures { result ≡ is_good_finding self.finding }
    {
        matches!(self.finding, Finding::Good)
    }

    /// What is found with a set more, by what became of it.
    pub fn with_set(self, part: Part, glimpse: Glimpse, end: SetEnd) -> Found
        ensures { result ≡ found_after part glimpse end self }
    {
        if part.looks_at(glimpse.lifted) && !is_shown(end) {
            return Found {
                finding: Finding::Unshown(self.sets),
                sets: self.sets,
                anew: self.anew,
                begin: self.begin,
            };
        }
        Found {
            finding: self.finding,
            sets: self.sets.saturating_add(1),
            anew: if self.sets == 0 {
                glimpse.anew
            } else {
                self.anew
            },
            begin: self.begin.or(glimpse.kept),
        }
    }

    /// What is found with so many losses at that packet.
    pub fn with_losses(self, losses: u32, packet: u64) -> Found
        ensures { result ≡ found_with losses packet self }
    {
        if losses == 0 {
            self
        } else {
            self.with_loss(packet)
        }
    }

    /// What is found with a loss at that packet.
    fn with_loss(self, packet: u64) -> Found
        ensures { result ≡ lost_after packet self }
    {
        match self.finding {
            Finding::Lost(_) => self,
            _ => Found {
                finding: Finding::Lost(packet),
                sets: self.sets,
                anew: self.anew,
                begin: self.begin,
            },
        }
    }
}

/// Whether the set is shown.
fn is_shown(end: SetEnd) -> bool
    ensures { result ≡ is_shown_end end }
{
    matches!(end, SetEnd::Shown)
}
