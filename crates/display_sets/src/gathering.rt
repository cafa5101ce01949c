//! The display sets of a service's pages, gathered from units.

ghost use Rattle.std.specs.Prelude.{◌≡◌};
ghost use Rattle.sub_base.specs.Lists.{has_some};

use crate::counted::counts;
use crate::filling::fill;
use crate::hand::{Hand, Head, Meeting, UnitEnd};
use crate::ready::Ready;
use decoder_model::Pages;
use std::alloc::Global;
use std::marker::Model;
use std::mem;
use sub_base::NoMemory;

/// Gathers the display sets of a service's pages from the PES packets of a receiver, in memory of a
/// fixed size: the set in hand and a set that was made ready before it.
#[derive(Drop)]
pub struct Gathering {
    pages: Pages,
    coded: u32,
    hand: Hand,
    bytes: Vec<u8>,
    parted: Option<Head>,
    parted_bytes: Vec<u8>,
}

impl Model for Gathering {
    ghost use Rattle.std.specs.Prelude.{◌≤◌};
    ghost use Rattle.std.specs.Vec.{vec_capacity};
    ghost use Rattle.display_sets.specs.Gathered.{Gathered, IsSoundGathering};

    ghost Value = { Gathered };

    ghost view = { λ g. record {
      pages = g.pages;
      coded = g.coded;
      hand = g.hand;
      bytes = g.bytes.items;
      parted = g.parted;
      parted_bytes = g.parted_bytes.items;
    } };

    ghost invariant = { λ g. IsSoundGathering
        (record {
          pages = g.pages;
          coded = g.coded;
          hand = g.hand;
          bytes = g.bytes.items;
          parted = g.parted;
          parted_bytes = g.parted_bytes.items;
        }) × (g.coded ≤ vec_capacity g.bytes)
        × (g.coded ≤ vec_capacity g.parted_bytes) };
}

impl Gathering {
    ghost use Rattle.std.specs.Option.{ForSome};
    ghost use Rattle.std.specs.Prelude.{◌^◌, ◌<◌, ◌≡◌, ℕ, ◌+◌, ◌*◌, ◌≤◌, Bool, true, false, List, [], ◌∷◌, ◌++◌, length, reverse, filter, IfOk, Some, None, option_map};
    ghost use Rattle.decoder_model.specs.Arrivals.{Arrival, loss, refused_unit, unit_with};
    ghost use Rattle.decoder_model.specs.PacketArrivals.{last_run};
    ghost use Rattle.decoder_model.specs.Sets.{Delivery, lost, runs_of, sets_in};
    ghost use Rattle.display_sets.specs.Counted.{counted_in};
    ghost use Rattle.display_sets.specs.Gathered.{HasFewBytes, TakesUp, first_ready, ready_sets, sets_behind};
    ghost use Rattle.display_sets.specs.Lent.{lent};
    ghost use Rattle.display_sets.specs.Standing.{IsFirst, IsUnitEnd, HasGathered};
    ghost use Rattle.display_sets.specs.declared.hand.Hand.TheVariants as hand_is;

    /// A gathering for these pages to which nothing came. A set whose segments have more than
    /// `coded` bytes is refused. All memory is taken here: twice that many bytes.
    pub fn make(alloc: Global, pages: Pages, coded: u32) -> Result<Gathering, NoMemory>
        ensures pages { IfOk result (λ gathering. gathering.pages ≡ pages) }
        ensures coded { IfOk result (λ gathering. gathering.coded ≡ coded) }
        ensures stands { IfOk result (HasGathered [] false []) }
    {
        Ok(Gathering {
            pages,
            coded,
            hand: Hand::Empty,
            bytes: Vec::with_capacity(alloc, coded as usize)?,
            parted: None,
            parted_bytes: Vec::with_capacity(alloc, coded as usize)?,
        })
    }

    /// Something was lost, or a unit was refused as a PES packet: a set in hand that has not ended
    /// is given up.
    pub fn lose(&mut self)
        requires { ready_sets self.old ≡ [] }
        ensures pages { self.new.pages ≡ self.old.pages }
        ensures coded { self.new.coded ≡ self.old.coded }

        // The loss counts as given.
        ensures loss { (arrivals : List Arrival) (given : List (Delivery (List ℕ)))
            → HasGathered arrivals false given self.old
            → HasGathered (arrivals ++ loss ∷ []) false (given ++ lost ∷ []) self.new }
        ensures refused { (arrivals : List Arrival) (given : List (Delivery (List ℕ)))
            → HasGathered arrivals false given self.old
            → HasGathered (arrivals ++ refused_unit ∷ []) false (given ++ lost ∷ []) self.new }
        ensures none { ready_sets self.new ≡ [] }
    {
        self.hand = Hand::Empty;
    }

    /// Takes the unit of a PES packet with this presentation time and so many bytes, whose segments
    /// are in `field`: the bytes of its data field behind the first two.
    pub fn take_unit(&mut self, time: u64, size: u32, field: &[u8]) -> UnitEnd
        requires none { ready_sets self.old ≡ [] }
        requires time { time < 2 ^ 33 }
        ensures pages { self.new.pages ≡ self.old.pages }
        ensures coded { self.new.coded ≡ self.old.coded }

        // Whichever packet ended the unit.
        ensures stands { (arrivals : List Arrival) (given : List (Delivery (List ℕ)))
            (place : ℕ)
            → HasGathered arrivals false given self.old
            → HasGathered
            (arrivals ++ unit_with place size time (counted_in self.old.pages field.now)
            ∷ []) false given self.new }
        ensures end { (arrivals : List Arrival) (given : List (Delivery (List ℕ))) (place : ℕ)
            → HasGathered arrivals false given self.old
            → IsUnitEnd self.old.coded (last_run (reverse arrivals))
            (unit_with place size time (counted_in self.old.pages field.now)) result }
    {
        if !counts(self.pages, field) {
            return UnitEnd::Aside;
        }
        match self.hand.meet(time) {
            Meeting::Begins => {
                self.begin(time, size, field);
                UnitEnd::Taken
            }
            Meeting::Joins { size: before } => {
                self.take_up(time, before, size, field);
                UnitEnd::Taken
            }
            Meeting::Parts(head) => {
                self.part(head);
                self.begin(time, size, field);
                UnitEnd::Parted
            }
            Meeting::Behind => UnitEnd::Dropped,
        }
    }

    /// The stream has ended: a set in hand that has not ended is ready as it stands.
    pub fn finish(&mut self)
        requires { ready_sets self.old ≡ [] }
        ensures pages { self.new.pages ≡ self.old.pages }
        ensures coded { self.new.coded ≡ self.old.coded }
        ensures stands { (arrivals : List Arrival) (given : List (Delivery (List ℕ)))
            → HasGathered arrivals false given self.old
            → HasGathered arrivals true given self.new }
    {
        self.hand = self.hand.closed();
    }

    /// The first set that is ready and was not given.
    pub fn ready(&self) -> Option<Ready<'_>>
        ensures first { option_map lent result ≡ first_ready (ready_sets self.now) }
        ensures timely { ForSome result (λ ready. ready.time < 2 ^ 33) }
        ensures small { ForSome result (λ ready. HasFewBytes self.now.coded ready.size) }
        ensures within { ForSome result
            (λ ready. IfOk ready.segments (λ bytes. length bytes.now < 2 ^ 32)) }
        ensures delivery { (arrivals : List Arrival) (ended : Bool)
            (given : List (Delivery (List ℕ)))
            → HasGathered arrivals ended given self.now
            → IsFirst (sets_in self.now.coded ended (runs_of arrivals)) given
            (option_map lent result) }
    {
        if let Some(head) = self.parted {
            return Some(head.lend(&self.parted_bytes));
        }
        match self.hand.ready() {
            Some(head) => Some(head.lend(&self.bytes)),
            None => None,
        }
    }

    /// The first set that is ready was taken; those behind it are left. Where none is ready nothing
    /// changes.
    pub fn give(&mut self)
        ensures pages { self.new.pages ≡ self.old.pages }
        ensures coded { self.new.coded ≡ self.old.coded }
        ensures left { ready_sets self.new ≡ sets_behind (ready_sets self.old) }
        ensures stands { (arrivals : List Arrival) (ended : Bool)
            (given rest : List (Delivery (List ℕ))) (delivery : Delivery (List ℕ))
            → HasGathered arrivals ended given self.old
            → sets_in self.old.coded ended (runs_of arrivals) ≡ given ++ delivery ∷ rest
            → HasGathered arrivals ended (given ++ delivery ∷ []) self.new }
    {
        if self.parted.is_some() {
            self.parted = None;
        } else {
            self.hand = self.hand.given();
        }
    }

    /// Makes the open set in hand, which has this head, the set that is ready first.
    fn part(&mut self, head: Head)
        requires time { head.time < 2 ^ 33 }
        requires size { head.size ≤ length self.old.bytes * 4294967296 }
        ensures { self.new
            ≡ record self.old {
              hand = hand_is.Empty;
              bytes = self.old.parted_bytes;
              parted = Some
                  head;
              parted_bytes = self.old.bytes;
            } }
    {
        mem::swap(&mut self.bytes, &mut self.parted_bytes);
        self.hand = Hand::Empty;
        self.parted = Some(head);
    }

    /// Begins a set with a unit.
    fn begin(&mut self, time: u64, size: u32, field: &[u8])
        requires time { time < 2 ^ 33 }
        requires counted { has_some (counted_in self.old.pages field.now) ≡ true }
        ensures { TakesUp (record self.old { hand = hand_is.Empty; bytes = [] }) self.new time size
            field.now }
    {
        self.hand = Hand::Empty;
        self.bytes.clear();
        self.take_up(time, 0, size, field);
    }

    /// Puts a unit's segments to the set in hand, whose units had `before` bytes.
    fn take_up(&mut self, time: u64, before: u64, size: u32, field: &[u8])
        requires time { time < 2 ^ 33 }
        requires before { before ≤ length self.old.bytes * 4294967296 }
        requires counted { has_some (counted_in self.old.pages field.now) ≡ true }
        ensures { TakesUp self.old self.new time (before + size) field.now }
    {
        let filled = fill(self.pages, self.coded, &mut self.bytes, field);
        self.hand = Hand::with(time, before + u64::from(size), filled);
    }
}
