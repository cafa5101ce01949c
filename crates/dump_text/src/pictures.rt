//! The texts of the pictures that a receiver shows.

ghost use Rattle.std.specs.Prelude.{◌≤◌, length};
ghost use Rattle.std.specs.List.Sorted.{IsStrictlyIncreasing};
ghost use Rattle.command_text.specs.Putting.{PutsOut};
ghost use Rattle.receiver.specs.Asking.{KeepsSets};
ghost use Rattle.receiver.specs.Lent.{IsWholeView, view_lent};
ghost use Rattle.dump_text.specs.DumpText.{view_text};
ghost use Rattle.dump_text.specs.Dumping.{AreBefore, AreFrom, PutsAsked, PutsBetween, PutsShown};

use command_text::{TextBuffer, put_clear, put_picture};
use receiver::{AskedReceiver, Receiver, View};
use std::thread::Threads;
use sub_base::{BandGate, Sink};

/// Puts out the texts of what is shown at the ticks from a place on, up to the first that is not
/// before an end; answers the place of that one. The ticks rise.
pub(crate) fn put_before<R: Threads + Sync, G: BandGate + Sync, K: Sink>(
    rt: &R,
    gate: &G,
    bands: u32,
    out: &mut K,
    buffer: &mut TextBuffer,
    receiver: &mut AskedReceiver,
    ticks: &[u64],
    first: usize,
    end: u64,
) -> usize
    requires some { 1 ≤ bands }
    requires few { bands ≤ 64 }
    requires within { first ≤ length ticks.now }
    requires rising { IsStrictlyIncreasing ticks.now }
    ensures puts { PutsBetween receiver.old
        (K.received out.old)
        (K.received out.new)
        buffer.old buffer.new ticks.now first result }
    ensures before { AreBefore end first result ticks.now }
    ensures from { AreFrom end result ticks.now }
    ensures next { first ≤ result }
    ensures within { result ≤ length ticks.now }
    ensures keeps { KeepsSets receiver.old receiver.new }
{
    for place in first..ticks.len() {
        if ticks[place] >= end {
            return place;
        }
        put_asked(rt, gate, bands, out, buffer, receiver, ticks[place]);
    }
    ticks.len()
}

/// Puts out the texts of what is shown at all ticks from a place on.
pub(crate) fn put_rest<R: Threads + Sync, G: BandGate + Sync, K: Sink>(
    rt: &R,
    gate: &G,
    bands: u32,
    out: &mut K,
    buffer: &mut TextBuffer,
    receiver: &mut AskedReceiver,
    ticks: &[u64],
    first: usize,
)
    requires some { 1 ≤ bands }
    requires few { bands ≤ 64 }
    requires within { first ≤ length ticks.now }
    ensures puts { PutsBetween receiver.old
        (K.received out.old)
        (K.received out.new)
        buffer.old buffer.new ticks.now first (length ticks.now) }
    ensures keeps { KeepsSets receiver.old receiver.new }
{
    for place in first..ticks.len() {
        put_asked(rt, gate, bands, out, buffer, receiver, ticks[place]);
    }
}

/// Puts out the text of what a receiver shows at a tick, no earlier than the last kept set. It is
/// drawn in so many bands, 1 to 64, where it was not.
fn put_asked<R: Threads + Sync, G: BandGate + Sync, K: Sink>(
    rt: &R,
    gate: &G,
    bands: u32,
    out: &mut K,
    buffer: &mut TextBuffer,
    receiver: &mut AskedReceiver,
    tick: u64,
)
    requires some { 1 ≤ bands }
    requires few { bands ≤ 64 }
    ensures puts { PutsAsked receiver.old
        (K.received out.old)
        (K.received out.new)
        buffer.old buffer.new tick }
    ensures keeps { KeepsSets receiver.old receiver.new }
{
    receiver.draw(rt, bands, gate, tick);
    put_view(out, buffer, tick, receiver.picture(tick));
}

/// Puts out the text of what a receiver shows at a tick, no earlier than the last kept set.
pub fn put_shown<K: Sink>(out: &mut K, buffer: &mut TextBuffer, receiver: &Receiver, tick: u64)
    ensures { PutsShown receiver.now
        (K.received out.old)
        (K.received out.new)
        buffer.old buffer.new tick }
{
    // What is asked for is never before the current picture, as what is told of all packets says.
    put_view(
        out,
        buffer,
        tick,
        receiver.picture(tick.max(receiver.from())),
    );
}

/// Puts out the text of what is lent, as that of a tick.
fn put_view<K: Sink>(out: &mut K, buffer: &mut TextBuffer, tick: u64, view: View<'_>)
    requires { IsWholeView view }
    ensures { PutsOut
        (K.received out.old)
        (K.received out.new)
        buffer.old buffer.new (view_text tick (view_lent view.entry)) }
{
    match view {
        View::Clear => put_clear(out, buffer, tick),
        View::Plane {
            width,
            height,
            colours,
        } => put_picture(out, buffer, tick, width, height, colours),
    }
}
