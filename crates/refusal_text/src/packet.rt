use sentence_text::{Part, Text};
use std::alloc::Global;
use stream_syntax::PacketFault;
use sub_base::NoMemory;

/// How many bytes a transport packet has.
const PACKET: u64 = 188;

/// The sentence on a stream that is refused at that packet, from 0.
pub fn packet_refusal(alloc: Global, packet: u64, fault: PacketFault) -> Result<Text, NoMemory> {
    let mut told = Text::new(alloc);
    told.say(&[
        Part::Words("packet "),
        Part::Number(packet),
        Part::Words(", at byte "),
        Part::Number(packet.saturating_mul(PACKET)),
        Part::Words(" of the stream: "),
        Part::Words(rule_of(fault)),
    ])?;
    Ok(told)
}

fn rule_of(fault: PacketFault) -> &'static str {
    match fault {
        PacketFault::NoSync => {
            "a transport packet has 188 bytes and begins with the byte 47 (hexadecimal), and this \
             one does not"
        }
        PacketFault::ReservedControl => {
            "an adaptation field control of 00 is reserved, and no packet has it"
        }
        PacketFault::BadAdaptation => "an adaptation field ends within its packet",
        PacketFault::Scrambled => "the packets of the PID are not scrambled",
    }
}
