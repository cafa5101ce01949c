ghost use Rattle.std.specs.Prelude.{◌≡◌, ◌+◌, ◌%◌, ◌<◌, ◌≤◌, length, true};
ghost use Rattle.stream_syntax.specs.TransportPackets.{written_packet};
ghost use Rattle.service_mux.specs.Multiplex.{table_payload};
ghost use Rattle.service_mux.specs.Private.Frames.{HasTurned};

use stream_syntax::PAYLOAD_LENGTH;
use ts_packets::Packetiser;

/// What follows a section in its packet.
const STUFFING: u8 = 0xFF;

/// A table that is sent again and again: its section in the payload of one packet, and the counter
/// of its PID.
#[derive(Drop)]
pub(crate) struct Table {
    /// Numbers the packets.
    pub packetiser: Packetiser,
    /// The pointer, the section, and stuffing.
    pub payload: [u8; 184],
}

impl Table {
    /// The table of that PID whose section this is. It has not been sent.
    pub(crate) fn make(pid: u16, section: &[u8]) -> Table
        requires pid { pid < 8192 }
        requires fits { length section.now ≤ 183 }
        ensures { HasTurned result pid section.now 0 }
    {
        let mut payload = [0; PAYLOAD_LENGTH];
        write_payload(section, &mut payload);
        Table {
            packetiser: Packetiser::make(pid),
            payload,
        }
    }

    /// Makes the next packet of the table.
    pub(crate) fn next(&mut self, packet: &mut [u8; 188])
        ensures packet { packet.new ≡ written_packet self.old.packetiser.pid true
            self.old.packetiser.counter self.old.payload }
        ensures pid { self.new.packetiser.pid ≡ self.old.packetiser.pid }
        ensures counter { self.new.packetiser.counter
            ≡ (self.old.packetiser.counter + 1) % 16 }
        ensures payload { self.new.payload ≡ self.old.payload }
    {
        self.packetiser.packet(&self.payload, true, packet);
    }
}

/// Writes the payload of a table's packet.
fn write_payload(section: &[u8], out: &mut [u8; 184])
    requires { length section.now ≤ 183 }
    ensures { out.new ≡ table_payload section.now }
{
    let (pointer, rest) = out.split_at_mut(1);
    let (place, stuffing) = rest.split_at_mut(section.len());
    // The section begins right behind the pointer.
    pointer[0] = 0;
    place.copy_from_slice(section);
    stuffing.fill(STUFFING);
}
