//! The page memory of a receiver, and what becomes of the sets that it is handed.

ghost use Rattle.std.specs.Prelude.{unwrap_or, ◌≡◌, ◌≢◌, ◌<◌, ◌^◌, ◌∷◌, [], List, ℕ, true, Some, None, IfErr, IfOk, IfSome, OnErr, option_and_then, option_map};
ghost use Rattle.decoder_model.specs.Faults.{display_fault as fault_of_display, display_or_default};
ghost use Rattle.decoder_model.specs.Free.{free_nodes_after, free_pixels_after};
ghost use Rattle.decoder_model.specs.Kept.{lifted_time};
ghost use Rattle.decoder_model.specs.Readings.{Content, Reading};
ghost use Rattle.decoder_model.specs.Received.{AreRead};
ghost use Rattle.decoder_model.specs.Sets.{Delivery, lost, whole, refused};
ghost use Rattle.decoder_model.specs.Verdict.{sets_since, verdict_of, verdict_on_kept};
ghost use Rattle.decoder_model.specs.declared.set_end.SetEnd.{SetEnd as Verdict};
ghost use Rattle.decoder_model.specs.declared.set_end.SetEnd.TheVariants.{Broken, NotLater, Shown};
ghost use Rattle.decoder_model.specs.declared.set_fault.SetFault.{SetFault as WhyBroken};
ghost use Rattle.segments.specs.Contents.{display_value, page_value};
ghost use Rattle.page_core.specs.Private.Judging.{fault_before_nodes as first_of_tests};
ghost use Rattle.page_core.specs.Private.Seen.{IsFound};
ghost use Rattle.page_core.specs.Private.Sound.{IsSound};
ghost use Rattle.page_core.specs.Private.Accepted.{IsBefore, IsBegun, IsEarly, IsTakenEarly};
ghost use Rattle.page_core.specs.Private.Epochs.{IsStart};
ghost use Rattle.page_core.specs.declared.epoch.Start.TheVariants.{Waits};
ghost use Rattle.page_core.specs.Memory.{IsMemoryAfter, IsForgotten, IsSameReceiver, Forgets};

mod cluts;
mod counting;
mod objects;
mod regions;
mod scene;
mod sets;

use crate::composition::CompositionMemory;
use crate::epoch::Start;
use crate::forget::reset_colours;
use crate::inks::Inks;
use crate::judging::fault_before_nodes;
use crate::marks::Marks;
use crate::taking::{Accepted, accept};
use crate::times::lifted_behind;
use decoder_model::{SetEnd, SetFault};
use pixel_store::Store;
pub use scene::Scene;
use segments::DisplaySeg;
use std::alloc::Global;
use std::marker::Model;
use stream_syntax::{DEFAULT_DISPLAY_HEIGHT, DEFAULT_DISPLAY_WIDTH};
use sub_base::{NoMemory, Profile};

/// The page memory of a receiver for one page (EN 300 743, clause 5). Contracts see what it keeps
/// as a plain record, and say what that has to do with all sets and losses that the core was
/// handed.
#[derive(Drop)]
pub struct Core {
    profile: Profile,
    page: u16,
    anchor: u64,
    last: Option<u64>,
    known: bool,
    time_out: u8,
    display: DisplaySeg,
    composition: CompositionMemory,
    inks: Inks,
    // At the table entries that are set.
    marks: Marks,
    store: Store,
}

impl Model for Core {
    ghost use Rattle.page_core.specs.Cores.{IsCore, memory_of};
    ghost use Rattle.page_core.specs.Memory.{Memory};

    ghost Value = { Memory };

    ghost view = { λ c. memory_of c.profile c.page c.anchor c.last c.known c.time_out c.display
        c.composition
        c.inks c.store };

    ghost invariant = { λ c. IsCore
        (memory_of c.profile c.page c.anchor c.last c.known c.time_out c.display c.composition
        c.inks c.store) c.marks };
}

impl Core {
    /// A core of a profile for the sets of a page that was handed nothing. Lifted times begin at
    /// the anchor. All memory is taken here.
    pub fn make(alloc: Global, profile: &Profile, page: u16, anchor: u64) -> Result<Core, NoMemory>
        requires anchor { anchor < 2 ^ 34 }
        requires nodes { profile.now.nodes < 2 ^ 31 }
        ensures stands { IfOk result (IsMemoryAfter []) }
        ensures profile { IfOk result (λ core. core.profile ≡ profile.now) }
        ensures page { IfOk result (λ core. core.page ≡ page) }
        ensures anchor { IfOk result (λ core. core.anchor ≡ anchor) }
    {
        Ok(Core {
            profile: *profile,
            page,
            anchor,
            last: None,
            known: false,
            time_out: 0,
            display: usual_display(),
            composition: CompositionMemory::make(alloc, profile.nodes)?,
            inks: Inks::make(alloc)?,
            marks: Marks::make(alloc)?,
            store: Store::make(alloc, profile.pixels)?,
        })
    }

    /// Something was lost between two sets: no epoch is known, and all nodes and pixel bytes are
    /// free.
    pub fn lose(&mut self)
        ensures stands { (past : List (Delivery Reading)) → IsMemoryAfter past self.old
            → IsMemoryAfter (lost ∷ past) self.new }
        ensures forgotten { IsForgotten self.new }
        ensures same { IsSameReceiver self.old self.new }
    {
        self.forget();
    }

    /// A set of this page that was refused before it was whole. Where it is kept, it is broken with
    /// that fault, and the core waits.
    pub fn refuse_set(&mut self, pts: u64, fault: SetFault) -> SetEnd
        requires { pts < 2 ^ 33 }
        ensures stands { (past : List (Delivery Reading)) (size : ℕ) → IsMemoryAfter past self.old
            → IsMemoryAfter (refused pts size fault ∷ past) self.new }
        ensures answer { (past : List (Delivery Reading)) (size : ℕ) → IsMemoryAfter past self.old
            → Some result
            ≡ verdict_of self.old.profile self.old.anchor past (refused pts size fault) }
        ensures not_shown { result ≢ Shown }
        ensures unchanged { (time : ℕ) → result ≡ NotLater time → self.new ≡ self.old }
        ensures broken { (why : WhyBroken) → result ≡ Broken why → IsForgotten self.new }
        ensures same { IsSameReceiver self.old self.new }
    {
        match self.lift(pts) {
            None => self.not_later(),
            Some(time) => {
                self.break_off(time);
                SetEnd::Broken(fault)
            }
        }
    }

    // The answer for a set that is not kept.
    fn not_later(&self) -> SetEnd
        ensures { result ≡ NotLater (unwrap_or self.now.last 0) }
    {
        SetEnd::NotLater {
            last: self.last.unwrap_or(0),
        }
    }

    // A set that is kept at that lifted time is broken.
    fn break_off(&mut self, time: u64)
        requires { time < 2 ^ 62 }
        ensures last { self.new.last ≡ Some time }
        ensures same { IsSameReceiver self.old self.new }
        ensures forgotten { IsForgotten self.new }
    {
        self.last = Some(time);
        self.forget();
    }

    /// The lifted time that a set with that presentation time would have, if it came next. `None`
    /// exactly where it would not be kept.
    pub fn lift(&self, pts: u64) -> Option<u64>
        requires { pts < 2 ^ 33 }
        ensures lifted { (past : List (Delivery Reading)) (size : ℕ) (readings : List Reading)
            → IsMemoryAfter past self.now
            → result ≡ lifted_time self.now.anchor past (whole pts size readings) }
        ensures bounded { IfSome result (λ time. time < 2 ^ 62) }
    {
        lifted_behind(self.anchor, self.last, pts)
    }

    /// How many nodes of the composition memory are free.
    pub fn free_nodes(&self) -> u32
        ensures value { result ≡ self.now.composition.free }
        ensures free { (past : List (Delivery Reading)) → IsMemoryAfter past self.now
            → result ≡ free_nodes_after self.now.profile self.now.anchor past }
    {
        self.composition.free()
    }

    /// How many bytes of pixels are free.
    pub fn free_pixels(&self) -> u64
        ensures value { result ≡ self.now.store.free }
        ensures free { (past : List (Delivery Reading)) → IsMemoryAfter past self.now
            → result ≡ free_pixels_after self.now.profile self.now.anchor past }
    {
        self.store.free()
    }

    // A kept set up to the tests by its epoch: one that waits, or is broken by itself, leaves
    // nothing.
    fn take_early<'a>(&mut self, time: u64, bytes: &'a [u8]) -> Result<Accepted<'a>, SetEnd>
        requires { time < 2 ^ 62 }
        ensures taken { (past : List (Delivery Reading)) (pts size : ℕ) (readings : List Reading)
            → IsMemoryAfter past self.old
            → lifted_time self.old.anchor past (whole pts size readings) ≡ Some time
            → AreRead readings bytes.now
            → IsTakenEarly self.old past pts size readings bytes.now self.new result }
        ensures start { IfOk result (λ accepted. accepted.start ≡ Waits → ⊥) }
        ensures early { IfErr result IsEarly }
        ensures forgotten { OnErr result (IsForgotten self.new) }
        ensures last { self.new.last ≡ Some time }
        ensures same { IsSameReceiver self.old self.new }
    {
        match accept(self.known, bytes) {
            Err(end) => {
                self.end_early(time);
                Err(end)
            }
            Ok(accepted) => {
                self.begin(time, accepted.start);
                Ok(accepted)
            }
        }
    }

    // The first fault of a set by its epoch, up to the count of nodes.
    fn fault_by_epoch(&self, accepted: &Accepted<'_>, bytes: &[u8]) -> Option<SetFault>
        ensures fault { (set : List Content) (before : List (List Content))
            → IsBefore before self.now → IsFound set accepted.now.found
            → IsSound set bytes.now
            → result ≡ first_of_tests self.now.profile before set
            (page_value accepted.now.page) }
        ensures display { result ≡ None
            → option_and_then (fault_of_display self.now.profile)
            (option_map display_value accepted.now.found.display) ≡ None }
    {
        let free = self.store.free();
        fault_before_nodes(
            &self.profile,
            &self.composition,
            free,
            &accepted.found,
            &accepted.page,
            bytes,
        )
    }

    // A kept set whose verdict is known before its epoch is looked at: it waits, or is broken.
    fn end_early(&mut self, time: u64)
        requires { time < 2 ^ 62 }
        ensures last { self.new.last ≡ Some time }
        ensures stands { (past : List (Delivery Reading)) (pts size : ℕ) (readings : List Reading)
            (end : Verdict)
            → IsMemoryAfter past self.old
            → lifted_time self.old.anchor past (whole pts size readings) ≡ Some time
            → verdict_on_kept self.old.profile (sets_since self.old.profile self.old.anchor past)
            readings ≡ end
            → IsEarly end
            → IsMemoryAfter (whole pts size readings ∷ past) self.new }
        ensures same { IsSameReceiver self.old self.new }
        ensures forgotten { IsForgotten self.new }
    {
        self.break_off(time);
    }

    // A kept set of an epoch: what the epoch had before it is kept, and all else is forgotten.
    fn begin(&mut self, time: u64, start: Start)
        requires { time < 2 ^ 62 }
        ensures last { self.new.last ≡ Some time }
        ensures same { IsSameReceiver self.old self.new }
        ensures begun { (past : List (Delivery Reading)) (set : List Content)
            → IsMemoryAfter past self.old
            → IsStart (sets_since self.old.profile self.old.anchor past) set start
            → IsBegun (sets_since self.old.profile self.old.anchor past) set start self.new }
    {
        self.last = Some(time);
        match start {
            Start::GoesOn => {}
            _ => self.forget(),
        }
    }

    // All is forgotten but the greatest lifted time.
    fn forget(&mut self)
        ensures { Forgets self.old self.new }
    {
        reset_colours(&mut self.composition, &mut self.inks, &mut self.marks);
        self.composition.reset();
        self.store.reset();
        self.display = usual_display();
        self.known = false;
    }
}

// The display where none is defined (EN 300 743, clause 7.2.1).
fn usual_display() -> DisplaySeg
    ensures { display_value result ≡ display_or_default None }
{
    DisplaySeg {
        version: 0,
        width: DEFAULT_DISPLAY_WIDTH,
        height: DEFAULT_DISPLAY_HEIGHT,
        window: None,
    }
}
