//! Whether a packet can be taken, before it is.

ghost use Rattle.std.specs.Prelude.{◌≡◌, MatchResult, None, Some};
ghost use Rattle.stream_syntax.specs.TransportPackets.{packet_fault};

use stream_syntax::PacketFault;
use ts_packets::kind_of;

/// Tests a packet as a receiver of that PID does, by its first fault (ISO/IEC 13818-1, 2.4.3.2 to
/// 2.4.3.5).
pub(crate) fn check_packet(pid: u16, packet: &[u8; 188]) -> Result<(), PacketFault>
    ensures { MatchResult result (λ _. packet_fault pid packet.now ≡ None)
        (λ fault. packet_fault pid packet.now ≡ Some fault) }
{
    kind_of(pid, packet)?;
    Ok(())
}
