//! The names of what is wrong with a transport packet, and with a PES packet.

ghost use Rattle.std.specs.Prelude.{◌≡◌, ◌≤◌, length};
ghost use Rattle.fault_names.specs.FaultNames.{packet_fault_name as name_of_packet_fault, pes_fault_name as name_of_pes_fault};

use stream_syntax::{PacketFault, PesFault};

/// The name of why a transport packet cannot be taken.
pub fn packet_fault_name(fault: PacketFault) -> &'static str
    ensures name { result.now ≡ name_of_packet_fault fault }
    ensures short { length result.now ≤ 15 }
{
    match fault {
        PacketFault::NoSync => "NoSync",
        PacketFault::ReservedControl => "ReservedControl",
        PacketFault::BadAdaptation => "BadAdaptation",
        PacketFault::Scrambled => "Scrambled",
    }
}

/// The name of why bytes are no PES packet of subtitles.
pub fn pes_fault_name(fault: PesFault) -> &'static str
    ensures name { result.now ≡ name_of_pes_fault fault }
    ensures short { length result.now ≤ 15 }
{
    match fault {
        PesFault::NoPrefix => "NoPrefix",
        PesFault::OtherStream(_) => "OtherStream",
        PesFault::BadHeader => "BadHeader",
        PesFault::Scrambled => "Scrambled",
        PesFault::NoPts => "NoPts",
        PesFault::BadMarker => "BadMarker",
        PesFault::OtherField(_) => "OtherField",
    }
}
