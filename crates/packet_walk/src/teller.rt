ghost use Rattle.std.specs.Prelude.{◌≡◌, ◌<◌, ℕ, List, MatchResult, None, OnErr, OnOk, Some};
ghost use Rattle.packet_source.specs.declared.limits.TheConstants.{STREAM_LIMIT};
ghost use Rattle.stream_syntax.specs.TransportPackets.{packet_fault};
ghost use Rattle.packet_walk.specs.Told.{HasTaken, StaysTold, TellsOne};

use command_text::TextBuffer;
use stream_syntax::PacketFault;
use sub_base::Sink;

/// What tells of the packets of a stream in a text, one packet after the other.
pub trait PacketTeller {
    /// The PID of the packets that it looks at.
    ghost pid: { Self → ℕ };

    /// It took these packets, and has put out this text.
    ghost stands: { Self → List (List ℕ) → List ℕ → Type 0 };

    /// What no packet changes of it, where there is more than the PID.
    ghost Kept: { Type 0 } = { Unit {0} };

    ghost kept: { Self → Self.Kept };

    /// Takes the packet of that place in the stream, counted from 0, where it took as many packets,
    /// and puts out what there is to tell with it. A packet that cannot be taken changes nothing.
    fn take_packet<K: Sink>(
        &mut self,
        out: &mut K,
        buffer: &mut TextBuffer,
        place: u64,
        packet: &[u8; 188],
    ) -> Result<(), PacketFault>
        requires place { place < STREAM_LIMIT }
        requires taken { HasTaken stands self.old place }
        ensures fault { MatchResult result (λ _. packet_fault (pid self.old) packet.now ≡ None)
            (λ fault. packet_fault (pid self.old) packet.now ≡ Some fault) }
        ensures pid { pid self.new ≡ pid self.old }
        ensures same { Self.kept self.new ≡ Self.kept self.old }
        ensures told { OnOk result (TellsOne stands
            (K.received out.old)
            (K.received out.new)
            self.old self.new buffer.old buffer.new place packet.now) }
        ensures kept { OnErr result (StaysTold stands
            (K.received out.old)
            (K.received out.new)
            self.old self.new buffer.old buffer.new) };
}
