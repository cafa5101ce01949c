//! Marks at the entries of the tables of all CLUTs: they tell which are set without a walk over
//! those that are, and which are counted already.

ghost use Rattle.std.specs.Prelude.{◌≡◌, ◌<◌, [], length, map, replicate, slice_index_or, slice_set, IfOk};
ghost use Rattle.page_core.specs.Private.Marks.{AreMarked, AreSwept, IsStamp, all_set, mark_by, uncounted};
ghost use Rattle.page_core.specs.Memory.{ink_place as place_of};
ghost use Rattle.page_core.specs.declared.marks.Mark.TheVariants.{Unset as unset};

use crate::inks::{INKS, ink_place};
use crate::node::TablePlace;
use std::alloc::Global;
use std::marker::Model;
use sub_base::NoMemory;

/// What is known of an entry of a table.
#[derive(Clone, Copy, Debug, PartialEq, Eq)]
pub(crate) enum Mark {
    Unset,
    /// It is not set, and was counted since counted marks were last taken off.
    Counted,
    Set,
}

/// The stamp of an entry that is set.
const SET: u16 = 65_535;

/// A mark at each entry of the tables of all CLUTs, the three tables of a CLUT one after another.
/// Contracts see them as a list.
#[derive(Drop)]
pub(crate) struct Marks {
    // The current stamp is that of a counted entry, and all others but `SET` are those of entries
    // that are not set: so counted marks are taken off by counting on.
    stamps: Vec<u16>,
    current: u16,
}

impl Model for Marks {
    ghost use Rattle.std.specs.Prelude.{List, map};
    ghost use Rattle.page_core.specs.Private.Marks.{AreStamps, mark_by};
    ghost use Rattle.page_core.specs.declared.marks.Mark.{Mark};

    ghost Value = { List Mark };

    ghost view = { λ m. map (mark_by m.current) m.stamps.items };

    ghost invariant = { λ m. AreStamps m.current m.stamps.items };
}

impl Marks {
    /// No entry is set or counted. All memory is taken here.
    pub(crate) fn make(alloc: Global) -> Result<Marks, NoMemory>
        ensures { IfOk result (AreMarked [] []) }
    {
        Ok(Marks {
            stamps: no_stamps(alloc, INKS)?,
            current: 1,
        })
    }

    /// The mark at an entry.
    pub(crate) fn at(&self, place: TablePlace) -> Mark
        ensures { result
            ≡ slice_index_or self.now (place_of place.clut place.depth place.entry) unset }
    {
        let index = ink_place(place.clut, place.depth, place.entry);
        mark_of(self.stamps[index], self.current)
    }

    /// Marks an entry.
    pub(crate) fn put(&mut self, place: TablePlace, mark: Mark)
        ensures { self.new
            ≡ slice_set self.old (place_of place.clut place.depth place.entry) mark }
    {
        let index = ink_place(place.clut, place.depth, place.entry);
        self.stamps[index] = stamp_of(mark, self.current);
    }

    /// Takes off the marks of counted entries.
    pub(crate) fn forget_counted(&mut self)
        ensures { self.new ≡ map uncounted self.old }
    {
        if self.current + 1 < SET {
            self.current += 1;
        } else {
            sweep(&mut self.stamps);
            self.current = 1;
        }
    }
}

fn no_stamps(alloc: Global, count: usize) -> Result<Vec<u16>, NoMemory>
    ensures { IfOk result (λ stamps. stamps.items ≡ replicate count 0) }
{
    Ok(vec![in alloc; 0; count]?)
}

fn mark_of(stamp: u16, current: u16) -> Mark
    ensures { result ≡ mark_by current stamp }
{
    if stamp == SET {
        Mark::Set
    } else if stamp == current {
        Mark::Counted
    } else {
        Mark::Unset
    }
}

fn stamp_of(mark: Mark, current: u16) -> u16
    requires low { 0 < current }
    requires high { current < all_set }
    ensures stamp { IsStamp current result }
    ensures mark { mark_by current result ≡ mark }
{
    match mark {
        Mark::Unset => 0,
        Mark::Counted => current,
        Mark::Set => SET,
    }
}

// No stamp is left but those of entries that are set.
fn sweep(stamps: &mut Vec<u16>)
    ensures count { length stamps.new.items ≡ length stamps.old.items }
    ensures swept { AreSwept stamps.old.items stamps.new.items }
{
    sweep_all(stamps.as_mut_slice());
}

fn sweep_all(stamps: &mut [u16])
    ensures { AreSwept stamps.old stamps.new }
{
    for index in 0..stamps.len() {
        if stamps[index] != SET {
            stamps[index] = 0;
        }
    }
}
