ghost use Rattle.std.specs.Prelude.{◌≡◌, ℕ, ◌+◌, ◌-◌, ◌*◌, ◌<◌, ◌≤◌, ◌==◌, ◌≢◌, length, None};
ghost use Rattle.stream_syntax.specs.BitFields.{packed};
ghost use Rattle.stream_syntax.specs.TransportPackets.{written_head, head_groups, adaptation_field, written_packet, null_packet as null_bytes, pid_of, counter_of, packet_fault};
ghost use Rattle.stream_syntax.specs.Cutting.{CarriesPiece};
ghost use Rattle.ts_packets.specs.Private.Numbering.{after_packet};

use byteorder::{BigEndian, ByteOrder};
use std::marker::Model;
use stream_syntax::{NULL_PID, PAYLOAD_LENGTH, SYNC_BYTE};

/// The bytes of a packet's head.
pub const HEAD_LENGTH: usize = 4;

const STUFFING: u8 = 0xFF;

/// Cuts the units of one PID into packets and numbers these.
#[derive(Drop)]
pub struct Packetiser {
    pid: u16,
    counter: u8,
}

impl Model for Packetiser {
    ghost use Rattle.std.specs.Prelude.{◌<◌};
    ghost use Rattle.ts_packets.specs.Private.Numbering.{Numbering};

    ghost Value = { Numbering };

    ghost view = { λ p. record { pid = p.pid; counter = p.counter } };

    ghost invariant = { λ p. (p.pid < 8192) × (p.counter < 16) };
}

impl Packetiser {
    /// Begins with the counter 0.
    pub fn make(pid: u16) -> Packetiser
        requires { pid < 8192 }
        ensures pid { result.pid ≡ pid }
        ensures counter { result.counter ≡ 0 }
    {
        Packetiser { pid, counter: 0 }
    }

    /// Begins with a counter, behind packets that others have sent.
    pub fn from_counter(pid: u16, counter: u8) -> Packetiser
        requires pid { pid < 8192 }
        requires counter { counter < 16 }
        ensures pid { result.pid ≡ pid }
        ensures counter { result.counter ≡ counter }
    {
        Packetiser { pid, counter }
    }

    /// Writes one packet with this piece of a unit, 1 to 184 bytes; `start` says that the unit
    /// begins with it.
    pub fn packet(&mut self, piece: &[u8], start: bool, out: &mut [u8; 188])
        requires some { 1 ≤ length piece.now }
        requires fits { length piece.now ≤ PAYLOAD_LENGTH }
        ensures bytes { out.new ≡ written_packet self.old.pid start self.old.counter piece.now }
        ensures counter { self.new ≡ after_packet self.old }

        // What is written is read again.
        ensures carries { CarriesPiece self.old.pid start piece.now out.new }
        ensures number { counter_of out.new ≡ self.old.counter }
        ensures taken { packet_fault self.old.pid out.new ≡ None }
    {
        write_packet(self.pid, self.counter, piece, start, out);
        self.counter = (self.counter + 1) % 16;
    }
}

/// Writes the packet that a multiplex has where nothing is to be sent.
pub fn null_packet(out: &mut [u8; 188])
    ensures bytes { out.new ≡ null_bytes }
    ensures pid { pid_of out.new ≡ NULL_PID }
    ensures taken { (pid : ℕ) → pid ≢ NULL_PID → packet_fault pid out.new ≡ None }
{
    write_null_packet(out);
}

fn write_null_packet(out: &mut [u8; 188])
    ensures { out.new ≡ null_bytes }
{
    let (head, payload) = out.split_at_mut(HEAD_LENGTH);
    head.copy_from_slice(&head_of(NULL_PID, false, 1, 0));
    payload.fill(STUFFING);
}

/// Writes a packet with a payload, and an adaptation field where the payload leaves room.
fn write_packet(pid: u16, counter: u8, piece: &[u8], start: bool, out: &mut [u8; 188])
    requires pid { pid < 8192 }
    requires counter { counter < 16 }
    requires fits { length piece.now ≤ PAYLOAD_LENGTH }
    ensures { out.new ≡ written_packet pid start counter piece.now }
{
    let room = PAYLOAD_LENGTH - piece.len();
    // What a payload leaves free is filled in front of it: behind a PES packet there is no
    // stuffing.
    let control = if room == 0 { 1 } else { 3 };
    let (head, rest) = out.split_at_mut(HEAD_LENGTH);
    let (field, payload) = rest.split_at_mut(room);
    head.copy_from_slice(&head_of(pid, start, control, counter));
    write_adaptation_field(field);
    payload.copy_from_slice(piece);
}

/// A packet's head without error flag, priority and scrambling.
fn head_of(pid: u16, start: bool, control: u8, counter: u8) -> [u8; HEAD_LENGTH]
    requires pid { pid < 8192 }
    requires control { control < 4 }
    requires counter { counter < 16 }
    ensures { result ≡ packed (head_groups (written_head pid start control counter)) }
{
    let flags: u16 = if start { 0x4000 } else { 0 };
    let mut head = [SYNC_BYTE, 0, 0, 16 * control + counter];
    BigEndian::write_u16(&mut head[1..3], flags + pid);
    head
}

/// Fills the place of an adaptation field: the count of the bytes behind it, flags of 0, and
/// stuffing.
#[tactic(auto, using(crate::proofs::Adaptation::long_field, crate::proofs::Adaptation::short_field))]
fn write_adaptation_field(field: &mut [u8])
    requires { length field.old ≤ PAYLOAD_LENGTH }
    ensures { field.new ≡ adaptation_field (length field.old) }
{
    field.fill(STUFFING);
    // One byte is the length alone, without flags.
    if field.len() == 1 {
        field[0] = 0;
    }
    if field.len() > 1 {
        field[0] = (field.len() - 1) as u8;
        field[1] = 0;
    }
}
