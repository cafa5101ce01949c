//! The pages of a PID.

ghost use Rattle.std.specs.Prelude.{◌≡◌, ◌+◌, ◌<◌, ◌≤◌, ◌==◌, ℕ, IsTrue, false, length, map, slice_index_or, vec_len};
ghost use Rattle.std.specs.Vec.{vec_capacity};
ghost use Rattle.pid_text.specs.Private.Listing.{closed, noted};
ghost use Rattle.pid_text.specs.declared.page_tally.PageTally.{PageTally};

use crate::page_tally::PageTally;
use std::alloc::Global;
use std::marker::Model;
use sub_base::NoMemory;

/// The most pages that are told of a PID.
const MOST_PAGES: usize = 64;

/// The pages of a PID in rising order, the lowest 64 where there are more, in memory of a fixed
/// size.
#[derive(Drop)]
pub(crate) struct PageList {
    entries: Vec<PageTally>,
    more: bool,
}

impl Model for PageList {
    ghost use Rattle.std.specs.Prelude.{◌≤◌, length};
    ghost use Rattle.std.specs.Vec.{vec_capacity};
    ghost use Rattle.pid_text.specs.Private.Listing.{PageListing};

    ghost Value = { PageListing };

    ghost view = { λ list. record { entries = list.entries.items; more = list.more } };

    ghost invariant = { λ list. (65 ≤ vec_capacity list.entries)
        × (length list.entries.items ≤ 64) };
}

impl PageList {
    ghost use Rattle.std.specs.Prelude.{◌≡◌, ◌||◌, [], nat_lt, length, map, take, IfOk, false};
    ghost use Rattle.pid_text.specs.Private.Listing.{closed, noted};

    /// The pages of no segment. All memory is taken here.
    pub(crate) fn make(alloc: Global) -> Result<PageList, NoMemory>
        ensures { IfOk result (λ list. list ≡ record { entries = []; more = false }) }
    {
        Ok(PageList {
            // One more stands in it while the highest is dropped.
            entries: Vec::with_capacity(alloc, MOST_PAGES + 1)?,
            more: false,
        })
    }

    /// The pages, with what was counted of each.
    pub(crate) fn entries(&self) -> &[PageTally]
        ensures { result.now ≡ self.now.entries }
    {
        self.entries.as_slice()
    }

    /// Whether there are more pages.
    pub(crate) fn has_more(&self) -> bool
        ensures { result ≡ self.now.more }
    {
        self.more
    }

    /// Counts a segment of that kind (segment_type) and page in the PES packet in hand.
    pub(crate) fn note(&mut self, kind: u8, page: u16)
        ensures { let all = noted (record { kind = kind; page = page }) self.old.entries in
            self.new ≡ record {
              entries = take 64 all;
              more = self.old.more
                  || nat_lt 64 (length all);
            } }
    {
        note_in(&mut self.entries, kind, page);
        if self.entries.len() > MOST_PAGES {
            self.entries.truncate(MOST_PAGES);
            self.more = true;
        }
    }

    /// The PES packet in hand has ended.
    pub(crate) fn close(&mut self)
        ensures { self.new
            ≡ record { entries = map closed self.old.entries; more = self.old.more } }
    {
        close_all(self.entries.as_mut_slice());
    }
}

/// Counts a segment of that kind and page among entries that have room for one more.
fn note_in(entries: &mut Vec<PageTally>, kind: u8, page: u16)
    requires { vec_len entries.old < vec_capacity entries.old }
    ensures items { entries.new.items
        ≡ noted (record { kind = kind; page = page }) entries.old.items }
    ensures len { vec_len entries.new ≤ vec_len entries.old + 1 }
    ensures room { vec_capacity entries.old ≤ vec_capacity entries.new }
{
    let place = place_of(entries.as_slice(), page);
    if is_at(entries.as_slice(), place, page) {
        let entry = &mut entries[place];
        entry.note(kind);
    } else {
        let mut entry = PageTally::new(page);
        entry.note(kind);
        entries.insert(place, entry).unwrap();
    }
}

/// How many entries have a lower page, where they stand in rising order.
fn place_of(entries: &[PageTally], page: u16) -> usize
    ensures within { result ≤ length entries.now }
    ensures before { (k : ℕ) (d : PageTally) → k < result
        → (slice_index_or entries.now k d).page < page }
    ensures behind { (d : PageTally) → result < length entries.now
        → page ≤ (slice_index_or entries.now result d).page }
{
    for (place, entry) in entries.iter().enumerate() {
        if entry.page >= page {
            return place;
        }
    }
    entries.len()
}

/// Whether an entry of that page stands at the place.
fn is_at(entries: &[PageTally], place: usize, page: u16) -> bool
    ensures within { IsTrue result → place < length entries.now }
    ensures is { (d : PageTally) → place < length entries.now
        → result ≡ ((slice_index_or entries.now place d).page == page) }
    ensures past { length entries.now ≤ place → result ≡ false }
{
    match entries.get(place) {
        Some(entry) => entry.page == page,
        None => false,
    }
}

/// Closes each entry.
fn close_all(entries: &mut [PageTally])
    ensures { entries.new ≡ map closed entries.old }
{
    for entry in entries.iter_mut() {
        entry.close();
    }
}
