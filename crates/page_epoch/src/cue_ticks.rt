ghost use Rattle.std.specs.Prelude.{◌≡◌, ◌++◌, map, List, IfOk, OnOk, nat_le};
ghost use Rattle.std.specs.List.{count_by};
ghost use Rattle.std.specs.List.Sorted.{IsNonDecreasing};
ghost use Rattle.cue_list.specs.declared.epoch.Epoch.{Epoch as EpochValue};
ghost use Rattle.page_epoch.specs.Instants.{shows_cue as shows_cue_at};
ghost use Rattle.page_epoch.specs.Private.Showing.{AreCueTicks, AreLasting};

use cue_list::{Cue, Epoch};
use std::alloc::{AllocError, Global};
use sub_base::Items;

/// The ticks at which the cues of a script start, and those at which they end, each list in order.
#[derive(Drop)]
pub struct CueTicks {
    /// The ticks at which cues start.
    pub starts: Items<u64>,
    /// The ticks at which cues end.
    pub ends: Items<u64>,
}

/// Appends the ticks at which cues start, and those at which they end.
fn push_ticks(starts: &mut Vec<u64>, ends: &mut Vec<u64>, cues: &[Cue]) -> Result<(), AllocError>
    ensures starts { OnOk result
        (starts.new.items ≡ starts.old.items ++ map (λ cue. cue.start) cues.now) }
    ensures ends { OnOk result
        (ends.new.items ≡ ends.old.items ++ map (λ cue. cue.end) cues.now) }
{
    for cue in cues {
        starts.push(cue.start)?;
        ends.push(cue.end)?;
    }
    Ok(())
}

/// How many of these ticks, which are in order, have come by a tick.
fn count_by_tick(ticks: &[u64], tick: u64) -> usize
    ensures { IsNonDecreasing ticks.now
        → result ≡ count_by (λ other. nat_le other tick) ticks.now }
{
    ticks.partition_point(|other| *other <= tick)
}

impl CueTicks {
    /// The ticks of the cues of all epochs.
    pub fn of(alloc: Global, epochs: &[Epoch]) -> Result<CueTicks, AllocError>
        ensures { IfOk result (AreCueTicks epochs.now) }
    {
        let mut starts = Vec::new(alloc);
        let mut ends = Vec::new(alloc);
        for epoch in epochs {
            push_ticks(&mut starts, &mut ends, epoch.cues.as_slice())?;
        }
        starts.sort()?;
        ends.sort()?;
        Ok(CueTicks {
            starts: Items::new(alloc, starts),
            ends: Items::new(alloc, ends),
        })
    }

    /// Whether some cue is live at a tick: more have started by then than have ended, since each
    /// ends after its start.
    pub fn shows_cue(&self, tick: u64) -> bool
        ensures { (epochs : List EpochValue) → AreCueTicks epochs self.now → AreLasting epochs
            → result ≡ shows_cue_at epochs tick }
    {
        count_by_tick(self.ends.as_slice(), tick) < count_by_tick(self.starts.as_slice(), tick)
    }
}
