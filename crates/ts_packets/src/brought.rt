//! What a packet brings to a buffer in which the bytes of units are counted.

ghost use Rattle.std.specs.Prelude.{◌≡◌, ◌≤◌, length};
ghost use Rattle.stream_syntax.specs.TransportPackets.{has_start_flag, payload_of};
ghost use Rattle.stream_syntax.specs.Units.{fate_of};
ghost use Rattle.stream_syntax.specs.declared.wire.TheConstants.{PAYLOAD_LENGTH};
ghost use Rattle.ts_packets.specs.Brought.{bytes_by, is_over_fate, too_long_by};

use crate::demux::{Demux, Fate, fate_of_unit};
use crate::kind::payload_bytes;
use stream_syntax::Event;

/// What a packet brings to a unit.
#[derive(Clone, Copy, Debug, PartialEq, Eq)]
pub struct Brought {
    /// How many of its payload bytes begin or continue a unit.
    pub bytes: u32,
    /// Whether that unit is dropped with them since it needs more bytes than are taken.
    pub too_long: bool,
}

impl Demux {
    ghost use Rattle.std.specs.Prelude.{◌≡◌, ◌≤◌};
    ghost use Rattle.stream_syntax.specs.declared.wire.TheConstants.{PAYLOAD_LENGTH};
    ghost use Rattle.ts_packets.specs.Brought.{bytes_by, too_long_by};

    /// What a packet brought that had this event.
    #[inline(always)]
    pub fn brought(&self, event: Event, packet: &[u8; 188]) -> Brought
        ensures bytes { result.bytes ≡ bytes_by event packet.now }
        ensures too_long { result.too_long ≡ too_long_by self.now.size event packet.now }
        ensures short { result.bytes ≤ PAYLOAD_LENGTH }
    {
        Brought {
            bytes: bytes_taken(event, packet),
            too_long: is_too_long(self.size(), event, packet),
        }
    }
}

/// How many bytes of a packet begin or continue a unit, by its event.
#[inline(always)]
fn bytes_taken(event: Event, packet: &[u8; 188]) -> u32
    ensures bytes { result ≡ bytes_by event packet.now }
    ensures short { result ≤ PAYLOAD_LENGTH }
{
    match event {
        Event::Followed | Event::TooLong { .. } => payload_length(packet),
        Event::Gap { .. } | Event::Short { .. } => {
            if starts(packet) {
                payload_length(packet)
            } else {
                0
            }
        }
        Event::Other | Event::NoPayload | Event::Double | Event::Dropped | Event::ErrorFlag => 0,
    }
}

/// Whether the unit of a packet is dropped since it needs more bytes than there are, by its event.
#[inline(always)]
fn is_too_long(size: u64, event: Event, packet: &[u8; 188]) -> bool
    ensures { result ≡ too_long_by size event packet.now }
{
    match event {
        Event::TooLong { .. } => true,
        Event::Gap { .. } | Event::Short { .. } => starts(packet)
            && needs_more(size, payload_bytes(packet)),
        Event::Followed
        | Event::Other
        | Event::NoPayload
        | Event::Double
        | Event::Dropped
        | Event::ErrorFlag => false,
    }
}

/// Whether a packet begins a unit (payload_unit_start_indicator).
fn starts(packet: &[u8; 188]) -> bool
    ensures { result ≡ has_start_flag packet.now }
{
    packet[1] / 64 % 2 == 1
}

fn payload_length(packet: &[u8; 188]) -> u32
    ensures length { result ≡ length (payload_of packet.now) }
    ensures short { result ≤ PAYLOAD_LENGTH }
{
    payload_bytes(packet).len() as u32
}

/// Whether a unit that begins with these bytes needs more than are taken.
fn needs_more(size: u64, bytes: &[u8]) -> bool
    requires { length bytes.now ≤ PAYLOAD_LENGTH }
    ensures { result ≡ is_over_fate (fate_of size bytes.now) }
{
    match fate_of_unit(size, bytes) {
        Fate::Over(_) => true,
        Fate::Waits | Fate::Whole(_) => false,
    }
}
