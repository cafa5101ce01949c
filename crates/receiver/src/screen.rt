//! The two pictures of a receiver: that of the last kept set, and that of the one before it.

ghost use Rattle.std.specs.Prelude.{◌≡◌, ◌≤◌};

use crate::picture::{Picture, turn};
use crate::view::View;
use page_core::{Core, SetEnd};
use std::alloc::Global;
use std::marker::Model;
use std::thread::Threads;
use sub_base::{BandGate, NoMemory, Profile};

/// The pictures that a receiver shows of the sets that it was handed.
#[derive(Drop)]
pub(crate) struct Screen {
    pending: Picture,
    current: Picture,
}

impl Model for Screen {
    ghost use Rattle.receiver.specs.Showing.{Pictures};
    ghost use Rattle.receiver.specs.Private.Screens.{IsScreen, pictures_of};

    ghost Value = { Pictures };

    ghost view = { λ s. pictures_of s.pending s.current };

    ghost invariant = { λ s. IsScreen s.pending s.current };
}

impl Screen {
    ghost use Rattle.std.specs.Prelude.{◌≡◌, ◌≤◌, ℕ, true, List, [], ◌∷◌, IfOk, Option, Some};
    ghost use Rattle.decoder_model.specs.Kept.{lifted_time};
    ghost use Rattle.decoder_model.specs.Readings.{Reading};
    ghost use Rattle.decoder_model.specs.Sets.{Delivery};
    ghost use Rattle.decoder_model.specs.Shown.{view_at};
    ghost use Rattle.decoder_model.specs.Verdict.{verdict_of};
    ghost use Rattle.decoder_model.specs.declared.set_end.SetEnd.TheVariants.{Shown};
    ghost use Rattle.page_core.specs.Memory.{IsMemoryAfter};
    ghost use Rattle.receiver.specs.Lent.{IsWholeView, view_lent};
    ghost use Rattle.receiver.specs.Showing.{ArePictures, places_of, shown_at};

    /// Two pictures that show nothing, with room for each picture of a profile. All memory is taken
    /// here.
    pub(crate) fn clear(alloc: Global, profile: &Profile) -> Result<Screen, NoMemory>
        ensures places { IfOk result (λ screen. screen.places ≡ places_of profile.now) }
        ensures nothing { IfOk result (λ screen. (anchor : ℕ)
            → ArePictures profile.now anchor [] screen.pending screen.current) }
    {
        Ok(Screen {
            pending: Picture::clear(alloc, profile)?,
            current: Picture::clear(alloc, profile)?,
        })
    }

    /// The core took a set, which would be kept at that lifted time, and has that end: from its
    /// time on its picture is shown, where it is kept. A set that is not kept changes no picture.
    pub(crate) fn take<R: Threads + Sync, G: BandGate + Sync>(
        &mut self,
        rt: &R,
        bands: u32,
        gate: &G,
        core: &Core,
        lifted: Option<u64>,
        end: SetEnd,
    )
        requires places { self.old.places ≡ places_of core.now.profile }
        requires known { end ≡ Shown → core.now.known ≡ true }
        requires some { 1 ≤ bands }
        requires few { bands ≤ 64 }
        ensures pictures { (past : List (Delivery Reading)) (one : Delivery Reading)
            → IsMemoryAfter (one ∷ past) core.now
            → lifted ≡ lifted_time core.now.anchor past one
            → Some end ≡ verdict_of core.now.profile core.now.anchor past one
            → ArePictures core.now.profile core.now.anchor past self.old.pending self.old.current
            → ArePictures core.now.profile core.now.anchor (one ∷ past) self.new.pending
            self.new.current }
        ensures places { self.new.places ≡ self.old.places }
    {
        if let Some(time) = lifted {
            turn(&mut self.current, &mut self.pending, time);
            if let SetEnd::Shown = end {
                self.pending.show(rt, core, bands, gate);
            }
        }
    }

    /// The lifted time of the current picture, from which on it is known what is shown.
    pub(crate) fn from(&self) -> u64
        ensures { result ≡ self.now.current.time }
    {
        self.current.time
    }

    /// Lends what is shown at a tick.
    pub(crate) fn picture(&self, tick: u64) -> View<'_>
        ensures view { view_lent result ≡ shown_at self.now.pending self.now.current tick }
        ensures whole { IsWholeView result }
    {
        if tick < self.pending.time {
            self.current.view(tick)
        } else {
            self.pending.view(tick)
        }
    }
}
