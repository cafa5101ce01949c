//! The picture of the last kept set, which is drawn when it is asked for.

ghost use Rattle.std.specs.Prelude.{◌≡◌, ◌≤◌};

use crate::picture::{Picture, is_over};
use crate::view::View;
use page_core::{Core, SetEnd};
use std::alloc::Global;
use std::marker::Model;
use std::thread::Threads;
use sub_base::{BandGate, NoMemory, Profile};

/// What is shown from the lifted time of the last kept set on. Where the set is shown, the page
/// memory has its page, and its picture is drawn at the first tick that is asked for and at which
/// it is not timed out.
#[derive(Drop)]
pub(crate) struct LastPicture {
    picture: Picture,
    /// Whether the picture is that of the last kept set; else it shows nothing.
    is_drawn: bool,
}

impl Model for LastPicture {
    ghost use Rattle.receiver.specs.LastShown.{Pictured};
    ghost use Rattle.receiver.specs.Private.LastPictures.{IsLastPicture, last_of};

    ghost Value = { Pictured };

    ghost view = { λ l. last_of l.picture l.is_drawn };

    ghost invariant = { λ l. IsLastPicture l.picture l.is_drawn };
}

impl LastPicture {
    ghost use Rattle.std.specs.Prelude.{◌≡◌, ◌≤◌, ℕ, true, false, List, [], ◌∷◌};
    ghost use Rattle.std.specs.Prelude.{IfOk, None, Some, unwrap_or};
    ghost use Rattle.decoder_model.specs.Kept.{last_time};
    ghost use Rattle.decoder_model.specs.Readings.{Reading};
    ghost use Rattle.decoder_model.specs.Sets.{Delivery};
    ghost use Rattle.decoder_model.specs.Shown.{view_at};
    ghost use Rattle.decoder_model.specs.Verdict.{verdict_of};
    ghost use Rattle.page_core.specs.Memory.{IsMemoryAfter};
    ghost use Rattle.receiver.specs.LastShown.{IsLastShown, IsStillKnown};
    ghost use Rattle.receiver.specs.Lent.{IsWholeView, view_lent};
    ghost use Rattle.receiver.specs.Showing.{places_of, view_in};
    ghost use Rattle.sub_base.specs.declared.profile.Profile.{Profile as ProfileValue};

    /// Nothing, with room for each picture of a profile. All memory is taken here.
    pub(crate) fn clear(alloc: Global, profile: &Profile) -> Result<LastPicture, NoMemory>
        ensures places { IfOk result (λ last. last.places ≡ places_of profile.now) }
        ensures drawn { IfOk result (λ last. last.drawn ≡ true) }
        ensures nothing { IfOk result (λ last. (anchor : ℕ)
            → IsLastShown profile.now anchor [] last.picture last.drawn) }
    {
        Ok(LastPicture {
            picture: Picture::clear(alloc, profile)?,
            is_drawn: true,
        })
    }

    /// A set was taken, which has that end. Where it is shown, its picture is yet to be drawn;
    /// where it is kept and not shown, nothing is shown from its time on. A set that is not kept
    /// changes nothing.
    pub(crate) fn take(&mut self, end: SetEnd)
        ensures shown { (profile : ProfileValue) (anchor : ℕ) (past : List (Delivery Reading))
            (one : Delivery Reading)
            → Some end ≡ verdict_of profile anchor past one
            → IsLastShown profile anchor past self.old.picture self.old.drawn
            → IsLastShown profile anchor (one ∷ past) self.new.picture self.new.drawn }
        ensures known { self.new.drawn ≡ false → IsStillKnown self.old.drawn end }
        ensures places { self.new.places ≡ self.old.places }
    {
        match end {
            SetEnd::NotLater { last: _ } => {}
            SetEnd::Shown => self.begin(false),
            SetEnd::Waiting => self.begin(true),
            SetEnd::Broken(_) => self.begin(true),
        }
    }

    /// Another picture takes the place of the last one: nothing, or what is yet to be drawn.
    fn begin(&mut self, is_drawn: bool)
        ensures picture { self.new.picture
            ≡ record { time = self.old.picture.time; until = None; plane = None } }
        ensures drawn { self.new.drawn ≡ is_drawn }
        ensures places { self.new.places ≡ self.old.places }
    {
        self.picture.hide();
        self.is_drawn = is_drawn;
    }

    /// Draws the picture, where it is not drawn, and where it is not timed out at a tick.
    pub(crate) fn draw_at<R: Threads + Sync, G: BandGate + Sync>(
        &mut self,
        rt: &R,
        bands: u32,
        gate: &G,
        core: &Core,
        tick: u64,
    )
        requires places { self.old.places ≡ places_of core.now.profile }
        requires known { self.old.drawn ≡ false → core.now.known ≡ true }
        requires some { 1 ≤ bands }
        requires few { bands ≤ 64 }
        ensures shown { (past : List (Delivery Reading)) → IsMemoryAfter past core.now
            → IsLastShown core.now.profile core.now.anchor past self.new.picture self.new.drawn
            → unwrap_or (last_time core.now.anchor past) 0 ≤ tick
            → view_in self.new.picture tick
            ≡ view_at core.now.profile core.now.anchor tick past }
        ensures stays { (past : List (Delivery Reading)) → IsMemoryAfter past core.now
            → IsLastShown core.now.profile core.now.anchor past self.old.picture self.old.drawn
            → IsLastShown core.now.profile core.now.anchor past self.new.picture self.new.drawn }
        ensures drawn { self.new.drawn ≡ false → self.old.drawn ≡ false }
        ensures places { self.new.places ≡ self.old.places }
    {
        if !self.is_drawn {
            let scene = core.scene();
            if !is_over(scene.until(), tick) {
                self.draw(rt, bands, gate, core);
            }
        }
    }

    /// Draws the picture, where it is not drawn.
    pub(crate) fn draw<R: Threads + Sync, G: BandGate + Sync>(
        &mut self,
        rt: &R,
        bands: u32,
        gate: &G,
        core: &Core,
    )
        requires places { self.old.places ≡ places_of core.now.profile }
        requires known { self.old.drawn ≡ false → core.now.known ≡ true }
        requires some { 1 ≤ bands }
        requires few { bands ≤ 64 }
        ensures stays { (past : List (Delivery Reading)) → IsMemoryAfter past core.now
            → IsLastShown core.now.profile core.now.anchor past self.old.picture self.old.drawn
            → IsLastShown core.now.profile core.now.anchor past self.new.picture self.new.drawn }
        ensures drawn { self.new.drawn ≡ true }
        ensures places { self.new.places ≡ self.old.places }
    {
        if !self.is_drawn {
            self.picture.show(rt, core, bands, gate);
            self.is_drawn = true;
        }
    }

    /// Lends what the picture shows at a tick.
    pub(crate) fn view(&self, tick: u64) -> View<'_>
        ensures view { view_lent result ≡ view_in self.now.picture tick }
        ensures whole { IsWholeView result }
    {
        self.picture.view(tick)
    }
}
