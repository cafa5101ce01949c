//! How many sets came to each end.

ghost use Rattle.std.specs.Prelude.{◌≡◌, ◌+◌, ◌<◌, ◌^◌, []};
ghost use Rattle.fault_text.specs.FaultText.{set_count, tally_of};
ghost use Rattle.fault_text.specs.Faulting.{counted_end, with_lost};

use decoder_model::SetEnd;

/// How many display sets of a stream came to each end, and how many losses there were.
#[derive(Clone, Copy, Debug, PartialEq, Eq)]
pub struct Tally {
    /// The sets that are shown.
    pub shown: u64,
    /// The sets of state normal for which no epoch is known.
    pub waiting: u64,
    /// The sets with a fault.
    pub broken: u64,
    /// The sets that are not later than those before them.
    pub not_later: u64,
    /// The losses between sets.
    pub lost: u64,
}

impl Tally {
    /// The tally of no set.
    pub(crate) fn nothing() -> Tally
        ensures { result ≡ tally_of [] }
    {
        Tally {
            shown: 0,
            waiting: 0,
            broken: 0,
            not_later: 0,
            lost: 0,
        }
    }

    /// How many sets there are.
    pub(crate) fn sets(&self) -> u64
        requires { set_count self.now < 2 ^ 63 }
        ensures { result ≡ set_count self.now }
    {
        self.shown + self.waiting + self.broken + self.not_later
    }

    /// One set more, of that end.
    pub(crate) fn count(&mut self, end: SetEnd)
        requires { set_count self.old < 2 ^ 63 }
        ensures counted { self.new ≡ counted_end end self.old }
        ensures more { set_count self.new ≡ set_count self.old + 1 }
    {
        match end {
            SetEnd::Shown => self.shown += 1,
            SetEnd::Waiting => self.waiting += 1,
            SetEnd::Broken(_) => self.broken += 1,
            SetEnd::NotLater { .. } => self.not_later += 1,
        }
    }

    /// So many losses more.
    pub(crate) fn lose(&mut self, losses: u32)
        requires { self.old.lost < 2 ^ 63 }
        ensures { self.new ≡ with_lost losses self.old }
    {
        self.lost += u64::from(losses);
    }
}
