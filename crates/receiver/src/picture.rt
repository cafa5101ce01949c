//! The pictures of a receiver: one plane each, made once, and drawn anew for each set that is
//! shown.

ghost use Rattle.std.specs.Prelude.{◌≡◌, ◌*◌, ◌≤◌, IfOk, List, None, Some, false, length, take, true, vec_len};
ghost use Rattle.decoder_model.specs.Readings.{Reading};
ghost use Rattle.decoder_model.specs.Sets.{Delivery};
ghost use Rattle.decoder_model.specs.Shown.{Standing, is_over_at, standing_after};
ghost use Rattle.page_core.specs.Memory.{IsMemoryAfter};
ghost use Rattle.page_core.specs.Rows.{picture_in};
ghost use Rattle.page_core.specs.Scenes.{ShowsStanding, until_in};
ghost use Rattle.receiver.specs.Lent.{IsWholeView, view_lent};
ghost use Rattle.receiver.specs.Showing.{places_of, plane_in, view_in};
ghost use Rattle.receiver.specs.Slots.{HasPlaces, IsInPlane, slot_of};

use crate::view::View;
use band_draw::draw;
use page_core::{Core, Scene};
use std::alloc::Global;
use std::mem;
use std::thread::Threads;
use stream_syntax::{DEFAULT_DISPLAY_HEIGHT, DEFAULT_DISPLAY_WIDTH};
use sub_base::{BandGate, CLEAR, Colour, NoMemory, Profile};

/// The pixels of the display where none is defined.
const USUAL_PLACES: u64 = DEFAULT_DISPLAY_WIDTH as u64 * DEFAULT_DISPLAY_HEIGHT as u64;

/// What is shown from a lifted time on, until a time-out.
#[derive(Drop)]
pub(crate) struct Picture {
    pub(crate) time: u64,
    pub(crate) until: Option<u64>,
    /// Whether the front of the plane is shown, with these sides; else the video is seen
    /// everywhere.
    pub(crate) shown: bool,
    pub(crate) width: u32,
    pub(crate) height: u32,
    pub(crate) plane: Vec<Colour>,
}

impl Picture {
    /// Nothing, from the first tick on, with room for each picture of a profile.
    pub(crate) fn clear(alloc: Global, profile: &Profile) -> Result<Picture, NoMemory>
        ensures slot { IfOk result
            (λ picture. slot_of picture ≡ record { time = 0; until = None; plane = None }) }
        ensures places { IfOk result (HasPlaces profile.now) }
        ensures inside { IfOk result IsInPlane }
    {
        Ok(Picture {
            time: 0,
            until: None,
            shown: false,
            width: 0,
            height: 0,
            plane: clear_plane(alloc, places(profile))?,
        })
    }

    /// Shows the page of a core, from the time that it has.
    pub(crate) fn show<R: Threads + Sync, G: BandGate + Sync>(
        &mut self,
        rt: &R,
        core: &Core,
        bands: u32,
        gate: &G,
    )
        requires known { core.now.known ≡ true }
        requires places { HasPlaces core.now.profile self.old }
        requires some { 1 ≤ bands }
        requires few { bands ≤ 64 }
        ensures slot { slot_of self.new
            ≡ record {
              time = self.old.time;
              until = until_in core.now;
              plane = Some
                  (plane_in core.now);
            } }
        ensures shown { (past : List (Delivery Reading)) → IsMemoryAfter past core.now
            → (standing : Standing)
            × (standing_after core.now.profile core.now.anchor past ≡ Some standing)
            × ShowsStanding standing core.now }
        ensures places { HasPlaces core.now.profile self.new }
        ensures inside { IsInPlane self.new }
    {
        let scene = core.scene();
        self.until = scene.until();
        self.width = scene.width();
        self.height = scene.height();
        self.shown = true;
        draw_front(rt, &scene, self.plane.as_mut_slice(), bands, gate);
    }

    /// Shows nothing, from the time that it has.
    pub(crate) fn hide(&mut self)
        ensures slot { slot_of self.new
            ≡ record { time = self.old.time; until = None; plane = None } }
        ensures hidden { self.new.shown ≡ false }
        ensures places { vec_len self.new.plane ≡ vec_len self.old.plane }
        ensures inside { IsInPlane self.new }
    {
        self.until = None;
        self.shown = false;
    }

    /// Lends what is shown at a tick from the picture's time on.
    pub(crate) fn view(&self, tick: u64) -> View<'_>
        requires { IsInPlane self.now }
        ensures view { view_lent result ≡ view_in (slot_of self.now) tick }
        ensures whole { IsWholeView result }
    {
        if self.shown && !is_over(self.until, tick) {
            View::Plane {
                width: self.width,
                height: self.height,
                colours: &self.plane[..self.width as usize * self.height as usize],
            }
        } else {
            View::Clear
        }
    }
}

/// The pending picture becomes the current one, and nothing is shown from that time on.
pub(crate) fn turn(current: &mut Picture, pending: &mut Picture, time: u64)
    ensures current { current.new ≡ pending.old }
    ensures pending { slot_of pending.new ≡ record { time = time; until = None; plane = None } }
    ensures places { vec_len pending.new.plane ≡ vec_len current.old.plane }
    ensures inside { IsInPlane pending.new }
{
    mem::swap(current, pending);
    pending.time = time;
    pending.hide();
}

/// Whether a time-out has come at a tick.
pub(crate) fn is_over(until: Option<u64>, tick: u64) -> bool
    ensures { result ≡ is_over_at tick until }
{
    match until {
        None => false,
        Some(until) => until <= tick,
    }
}

/// How many places a plane has: those of the greatest display of a profile, and of the display
/// where none is defined.
fn places(profile: &Profile) -> usize
    ensures { result ≡ places_of profile.now }
{
    let greatest = u64::from(profile.width) * u64::from(profile.height);
    greatest.max(USUAL_PLACES) as usize
}

/// So many places in which the video is seen.
fn clear_plane(alloc: Global, places: usize) -> Result<Vec<Colour>, NoMemory>
    ensures { IfOk result (λ plane. vec_len plane ≡ places) }
{
    Ok(vec![in alloc; CLEAR; places]?)
}

/// Draws the picture of a scene into the front of a plane.
fn draw_front<R: Threads + Sync, G: BandGate + Sync>(
    rt: &R,
    scene: &Scene<'_>,
    plane: &mut [Colour],
    bands: u32,
    gate: &G,
)
    requires room { scene.now.display.width * scene.now.display.height ≤ length plane.old }
    requires some { 1 ≤ bands }
    requires few { bands ≤ 64 }
    ensures front { take (scene.now.display.width * scene.now.display.height) plane.new
        ≡ picture_in scene.now }
    ensures length { length plane.new ≡ length plane.old }
{
    let places = scene.width() as usize * scene.height() as usize;
    draw(rt, scene, &mut plane[..places], bands, gate);
}
