ghost use Rattle.std.specs.Prelude.{ℕ};
ghost use Rattle.stream_syntax.specs.Cutting.{AnyCutting, NothingLost};

/// A unit of up to the demultiplexer's size that is cut into packets in any way, with packets of
/// other PIDs, null packets, packets without payload and doubles anywhere between, comes out whole,
/// once, at the packet that ends it, whatever was fed before it; behind it no unit is in hand.
/// Where none was in hand before and no counter is missing, none of its packets means a loss. Units
/// and events are those that `Demux::feed` answers at each packet.
pub fn every_cutting_gives_its_unit()
    ensures whole { (pid size : ℕ) → AnyCutting pid size }
    ensures sound { (pid size : ℕ) → NothingLost pid size }
{}
