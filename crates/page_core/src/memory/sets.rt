//! What becomes of a set that a core is handed (EN 300 743, clause 5.1): its verdict, and what the
//! page memory has with it.

ghost use Rattle.std.specs.Prelude.{◌≡◌, ◌-◌, ◌<◌, ◌≤◌, ◌^◌, ◌∷◌, [], List, ℕ, Some, None, true, option_and_then, option_map};
ghost use Rattle.decoder_model.specs.Contents.{display_in_set, page_in_set};
ghost use Rattle.decoder_model.specs.Faults.{display_fault as fault_of_display, epoch_fault};
ghost use Rattle.decoder_model.specs.Kept.{lifted_time};
ghost use Rattle.decoder_model.specs.Nodes.{nodes_of};
ghost use Rattle.decoder_model.specs.Readings.{Content, Reading};
ghost use Rattle.decoder_model.specs.Received.{AreRead};
ghost use Rattle.decoder_model.specs.Sets.{Delivery, whole};
ghost use Rattle.decoder_model.specs.Taken.{taken_of};
ghost use Rattle.decoder_model.specs.Verdict.{sets_since, verdict_of, verdict_on_kept};
ghost use Rattle.decoder_model.specs.declared.set_end.SetEnd.TheVariants.{Broken, NotLater, Shown};
ghost use Rattle.decoder_model.specs.declared.set_fault.SetFault.{SetFault as WhyBroken};
ghost use Rattle.segments.specs.Contents.{display_value, page_value};
ghost use Rattle.page_core.specs.Private.Accepted.{IsBefore};
ghost use Rattle.page_core.specs.Composition.{with_entries};
ghost use Rattle.page_core.specs.Private.Epochs.{HasOneDisplay};
ghost use Rattle.stream_syntax.specs.Segments.{Display};
ghost use Rattle.page_core.specs.Memory.{HoldsSegments, IsForgotten, IsSameReceiver, IsWholeMemory, IsMemoryAfter, showing};
ghost use Rattle.page_core.specs.Private.RegionTests.{before_regions};
ghost use Rattle.page_core.specs.Private.Seen.{IsFound};
ghost use Rattle.page_core.specs.Private.SetSteps.{HasEpoch, KeepsButPage, with_composition};
ghost use Rattle.page_core.specs.Private.Sound.{IsSound};

use super::Core;
use crate::taking::Accepted;
use decoder_model::{SetEnd, SetFault};
use segments::{DisplaySeg, PageSeg};

impl Core {
    /// A whole set of this page, as the bytes of its segments, and what becomes of it. Where it is
    /// kept and has a fault, all is given up and the core waits; a set that is not later than one
    /// that was kept changes nothing.
    pub fn take_set(&mut self, pts: u64, bytes: &[u8]) -> SetEnd
        requires { pts < 2 ^ 33 }
        ensures stands { (past : List (Delivery Reading)) (size : ℕ) (readings : List Reading)
            → IsMemoryAfter past self.old → AreRead readings bytes.now
            → IsMemoryAfter (whole pts size readings ∷ past) self.new }
        ensures answer { (past : List (Delivery Reading)) (size : ℕ) (readings : List Reading)
            → IsMemoryAfter past self.old → AreRead readings bytes.now
            → Some result
            ≡ verdict_of self.old.profile self.old.anchor past (whole pts size readings) }
        ensures known { result ≡ Shown → self.new.known ≡ true }
        ensures unchanged { (time : ℕ) → result ≡ NotLater time → self.new ≡ self.old }
        ensures broken { (why : WhyBroken) → result ≡ Broken why → IsForgotten self.new }
        ensures same { IsSameReceiver self.old self.new }
    {
        match self.lift(pts) {
            None => self.not_later(),
            Some(time) => self.take_kept(time, bytes),
        }
    }

    // A set that is kept at that lifted time.
    fn take_kept(&mut self, time: u64, bytes: &[u8]) -> SetEnd
        requires { time < 2 ^ 62 }
        ensures stands { (past : List (Delivery Reading)) (pts size : ℕ) (readings : List Reading)
            → IsMemoryAfter past self.old
            → lifted_time self.old.anchor past (whole pts size readings) ≡ Some time
            → AreRead readings bytes.now
            → IsMemoryAfter (whole pts size readings ∷ past) self.new }
        ensures answer { (past : List (Delivery Reading)) (pts size : ℕ) (readings : List Reading)
            → IsMemoryAfter past self.old
            → lifted_time self.old.anchor past (whole pts size readings) ≡ Some time
            → AreRead readings bytes.now
            → result ≡ verdict_on_kept self.old.profile
            (sets_since self.old.profile self.old.anchor past) readings }
        ensures kept { (last : ℕ) → result ≡ NotLater last → ⊥ }
        ensures known { result ≡ Shown → self.new.known ≡ true }
        ensures broken { (why : WhyBroken) → result ≡ Broken why → IsForgotten self.new }
        ensures same { IsSameReceiver self.old self.new }
    {
        match self.take_early(time, bytes) {
            Err(end) => end,
            Ok(accepted) => match self.take_in_epoch(&accepted, bytes) {
                None => SetEnd::Shown,
                Some(fault) => {
                    self.forget();
                    SetEnd::Broken(fault)
                }
            },
        }
    }

    // A set of an epoch is tested and taken. With a fault, what is left of it is of no use.
    fn take_in_epoch(&mut self, accepted: &Accepted<'_>, bytes: &[u8]) -> Option<SetFault>
        ensures fault { (set : List Content) (before : List (List Content))
            → IsBefore before self.old
            → IsFound set accepted.now.found → IsSound set bytes.now
            → page_in_set set ≡ Some (page_value accepted.now.page)
            → result ≡ epoch_fault self.old.profile before set (page_value accepted.now.page) }
        ensures taken { (set : List Content) (before : List (List Content))
            → IsBefore before self.old
            → IsFound set accepted.now.found → IsSound set bytes.now
            → page_in_set set ≡ Some (page_value accepted.now.page) → result ≡ None
            → HasEpoch set before (page_value accepted.now.page) self.new }
        ensures known { result ≡ None → self.new.known ≡ true }
        ensures last { self.new.last ≡ self.old.last }
        ensures same { IsSameReceiver self.old self.new }
    {
        if let Some(fault) = self.fault_by_epoch(accepted, bytes) {
            return Some(fault);
        }
        if let Some(fault) = self.nodes_fault(&accepted.page, bytes) {
            return Some(fault);
        }
        self.take_display(accepted.found.display);
        self.clear_page();
        self.take_regions(bytes);
        let _ = &self.known; // The invariant is wanted.
        self.take_cluts(bytes);
        self.take_page(&accepted.page);
        self.take_objects(bytes)
    }

    // The display that a set defines is in force; where it defines none, the one from before it
    // stays.
    fn take_display(&mut self, display: Option<DisplaySeg>)
        requires fits { option_and_then (fault_of_display self.old.profile)
            (option_map display_value display) ≡ None }
        ensures holds { (older set : List Content) → HoldsSegments older self.old
            → display_in_set set ≡ option_map display_value display
            → ((one : Display) → display_in_set set ≡ Some one → HasOneDisplay set one)
            → HoldsSegments (before_regions older set) self.new }
        ensures rest { self.new ≡ showing self.new.display self.old }
    {
        if let Some(display) = display {
            self.display = display;
        }
    }

    // Takes the entries of the page out: the regions of a set may need their nodes.
    fn clear_page(&mut self)
        ensures cleared { self.new
            ≡ with_composition (with_entries [] self.old.composition) self.old }
        ensures whole { IsWholeMemory self.new }
    {
        self.composition.clear_entries();
    }

    // The page of a set stands.
    fn take_page(&mut self, page: &PageSeg<'_>)
        ensures holds { (segments : List Content) → HoldsSegments segments self.old
            → HoldsSegments segments self.new }
        ensures entries { (segments : List Content) → HoldsSegments segments self.old
            → self.old.composition.entries ≡ []
            → nodes_of (taken_of segments) (page_value page.now) ≤ self.old.profile.nodes
            → self.new.composition.entries ≡ (page_value page.now).entries }
        ensures free { (segments : List Content) → HoldsSegments segments self.old
            → self.old.composition.entries ≡ []
            → nodes_of (taken_of segments) (page_value page.now) ≤ self.old.profile.nodes
            → self.new.composition.free
            ≡ self.new.profile.nodes - nodes_of (taken_of segments) (page_value page.now) }
        ensures time_out { self.new.time_out ≡ (page_value page.now).time_out }
        ensures known { self.new.known ≡ true }
        ensures rest { KeepsButPage self.old self.new }
    {
        if page.count() <= self.composition.free() as usize {
            self.composition.set_entries(page);
        }
        self.time_out = page.time_out;
        self.known = true;
    }
}
