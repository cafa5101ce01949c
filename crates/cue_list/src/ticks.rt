ghost use Rattle.std.specs.Prelude.{◌≡◌, ◌||◌, ◌<◌, ◌^◌, ℕ, false, IfOk, OnOk};
ghost use Rattle.cue_list.specs.Past.{is_close as is_close_of};
ghost use Rattle.cue_list.specs.Private.Ticks.{IsTicks, near_by, near_with, named_by, is_close_to};

use std::alloc::{AllocFailed, Global};
use std::collections::BTreeMap;
use sub_base::NoMemory;

/// The ticks that the records of a script have named. No two of them are 1 to 3,600 ticks apart, so
/// a span of 3,601 ticks has one of them at most.
#[derive(Drop)]
pub(crate) struct Ticks {
    spans: BTreeMap<u64, u64>,
}

/// How far apart two different ticks are, at the least.
const SPAN: u64 = 3_601;

impl Ticks {
    pub(crate) fn new(alloc: Global) -> Ticks
        ensures spans { IsTicks result }
        ensures none { (tick : ℕ) → near_by result tick ≡ false }
    {
        Ticks {
            spans: BTreeMap::new(alloc),
        }
    }

    /// The same ticks, in memory of their own.
    pub(crate) fn copy(&self) -> Result<Ticks, NoMemory>
        ensures { IfOk result (λ copy. named_by copy ≡ named_by self.now) }
    {
        Ok(Ticks {
            spans: self.spans.clone()?,
        })
    }

    /// Whether a tick is too close to one of them.
    pub(crate) fn is_near(&self, tick: u64) -> bool
        requires { tick < 2 ^ 63 }
        ensures { result ≡ near_by self.now tick }
    {
        let span = tick / SPAN;
        // A tick that is too close lies in this span or in one beside it.
        let before = if span == 0 { 0 } else { span - 1 };
        self.has_close(before, tick) || self.has_close(span, tick) || self.has_close(span + 1, tick)
    }

    /// Whether the tick that was named in a span is too close to another one.
    fn has_close(&self, span: u64, tick: u64) -> bool
        requires { tick < 2 ^ 63 }
        ensures { result ≡ is_close_to tick (named_by self.now span) }
    {
        match self.spans.get(&span) {
            None => false,
            Some(named) => is_close(tick, *named),
        }
    }

    /// Adds a tick that is not too close to any.
    pub(crate) fn add(&mut self, tick: u64) -> Result<(), AllocFailed<(u64, u64)>>
        requires spans { IsTicks self.old }
        requires apart { near_by self.old tick ≡ false }
        ensures spans { OnOk result (IsTicks self.new) }
        ensures added { OnOk result (near_by self.new ≡ near_with tick (near_by self.old)) }
    {
        self.spans.insert(tick / SPAN, tick)?;
        Ok(())
    }

    /// Adds the two ticks of a span, that are not too close to any or to each other.
    pub(crate) fn add_both(&mut self, start: u64, end: u64) -> Result<(), AllocFailed<(u64, u64)>>
        requires spans { IsTicks self.old }
        requires start { near_by self.old start ≡ false }
        requires end { near_by self.old end ≡ false }
        requires apart { is_close_of start end ≡ false }
        ensures spans { OnOk result (IsTicks self.new) }
        ensures added { OnOk result
            (near_by self.new ≡ near_with start (near_with end (near_by self.old))) }
    {
        self.add(end)?;
        self.add(start)?;
        Ok(())
    }
}

/// Whether two ticks differ by 1 to 3,600.
pub(crate) fn is_close(first: u64, second: u64) -> bool
    ensures { result ≡ is_close_of first second }
{
    if first < second {
        second - first < SPAN
    } else {
        second < first && first - second < SPAN
    }
}
