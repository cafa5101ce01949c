use thiserror::Error;

/// Why a transport packet cannot be taken (ISO/IEC 13818-1, 2.4.3.2 to 2.4.3.5).
#[derive(Clone, Copy, Debug, PartialEq, Eq, Error)]
pub enum PacketFault {
    /// The first byte is not the sync byte (sync_byte).
    #[error("no sync byte")]
    NoSync,
    /// The adaptation field control is the reserved one (adaptation_field_control 00).
    #[error("reserved adaptation field control")]
    ReservedControl,
    /// The adaptation field does not fit the packet (adaptation_field_length).
    #[error("the adaptation field does not fit the packet")]
    BadAdaptation,
    /// The payload is scrambled (transport_scrambling_control).
    #[error("the packet is scrambled")]
    Scrambled,
}

/// What became of one transport packet.
#[derive(Clone, Copy, Debug, PartialEq, Eq)]
pub enum Event {
    /// The packet begins or continues a unit.
    Followed,
    /// The packet has another PID (PID).
    Other,
    /// The packet has an adaptation field alone.
    NoPayload,
    /// The packet has the counter of the payload packet before it, and is passed over (duplicate
    /// packet).
    Double,
    /// The packet continues a unit whose beginning is not there.
    Dropped,
    /// Another counter was due (continuity_counter): packets are missing before this one.
    Gap { expected: u8, found: u8 },
    /// The packet is marked as damaged (transport_error_indicator).
    ErrorFlag,
    /// A unit begins while another one had only so many bytes.
    Short { have: u32 },
    /// The unit needs more bytes (PES_packet_length) than the demultiplexer takes.
    TooLong { need: u32, size: u64 },
}
