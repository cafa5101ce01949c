//! What the definitions give for bytes that were worked out by hand from the syntax tables.

ghost use Rattle.stream_syntax.specs.WorkedBytes.{AreCodesSpelled, IsHeadRead, IsPacketRead, IsPageWritten};

/// The head of a transport packet, the head of a PES packet with a time of 33 bits, pixel codes of
/// each depth, and a page composition segment are the bytes that were worked out by hand from the
/// tables of ISO/IEC 13818-1 and EN 300 743.
pub fn worked_bytes()
    ensures packet { IsPacketRead }
    ensures head { IsHeadRead }
    ensures codes { AreCodesSpelled }
    ensures page { IsPageWritten }
{}
