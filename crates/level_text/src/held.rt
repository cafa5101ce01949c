//! The packets that are held until it is known when they arrive.

ghost use Rattle.std.specs.Prelude.{◌≡◌, ◌==◌, ◌+◌, ◌<◌, ◌≤◌, IfSome};
ghost use Rattle.std.specs.Vec.{vec_capacity, vec_len};
ghost use Rattle.pcr_clock.specs.Arrivals.{IsBehind, last_tick};
ghost use Rattle.pcr_clock.specs.declared.sample.TheConstants.{CLOCK_LIMIT};
ghost use Rattle.set_receiver.specs.Receiving.{IsSameReception, reception};
ghost use Rattle.stream_syntax.specs.TransportPackets.{pid_of};
ghost use Rattle.level_text.specs.Held.{AreHeld, TakesHeld, end_tick, held_with};

use check_text::SetMeter;
use command_text::TextBuffer;
use pcr_clock::{NextSample, tick_between};
use sub_base::Sink;
use ts_packets::is_of_pid;

/// A packet of a receiver's PID of which it is not known yet when it arrives.
#[derive(Clone, Copy, Debug)]
pub struct HeldPacket {
    /// How many packets it stands behind the last sample, or behind the stream's begin.
    pub behind: u32,
    /// Its bytes.
    pub packet: [u8; 188],
}

/// Packets without a sample, one behind the other: so many, of which the first stands `since`
/// packets behind the last sample, or behind the stream's begin.
#[derive(Clone, Copy, Debug)]
pub struct Run {
    /// The time of the last sample, in units of 27 MHz.
    pub last: Option<u64>,
    /// How many packets the first stands behind it.
    pub since: u64,
    /// How many there are.
    pub count: u64,
    /// The sample that comes behind them, where it is known.
    pub next: Option<NextSample>,
}

/// Holds a packet that stands so many behind, where it is of the PID.
pub(crate) fn hold_own(held: &mut Vec<HeldPacket>, pid: u16, behind: u32, packet: &[u8; 188])
    requires room { vec_len held.old < vec_capacity held.old }
    ensures held { held.new.items
        ≡ held_with (pid_of packet.now == pid) held.old.items behind packet.now }
    ensures room { vec_capacity held.new ≡ vec_capacity held.old }
{
    if is_of_pid(pid, packet) {
        held.push_reserved(HeldPacket {
            behind,
            packet: *packet,
        });
    }
}

/// Takes the packets of the PID that stand in a run, each of which can be taken, at their ticks.
/// The packets between them bring nothing.
pub(crate) fn take_held<K: Sink>(
    out: &mut K,
    buffer: &mut TextBuffer,
    sets: &mut SetMeter,
    run: Run,
    held: &[HeldPacket],
)
    requires last { IfSome run.last (λ time. time < CLOCK_LIMIT) }
    requires next { IfSome run.next (λ next. next.time < CLOCK_LIMIT) }
    requires behind { IsBehind run.last run.next }
    requires within { IfSome run.next (λ next. run.since + run.count ≤ next.behind) }
    requires held { AreHeld (reception sets.old.receiving).pid run.since (run.since + run.count)
        held.now }
    requires later { sets.old.meter.last ≤ last_tick run.last }
    requires origin { sets.old.meter.pace.origin ≡ 0 }
    requires step { sets.old.meter.pace.step ≡ 1 }
    ensures same { IsSameReception sets.old.receiving sets.new.receiving }
    ensures pace { sets.new.meter.pace ≡ sets.old.meter.pace }
    ensures last { sets.new.meter.last ≤ end_tick run.last run.next }
    ensures told { TakesHeld
        (K.received out.old)
        (K.received out.new)
        sets.old sets.new buffer.old buffer.new run held.now }
{
    for one in held {
        let tick = tick_between(run.last, u64::from(one.behind), run.next);
        let _taken = sets.take(out, buffer, tick, &one.packet);
    }
}
