use thiserror::Error;

/// Why bytes are no PES packet of a subtitle stream (ISO/IEC 13818-1, 2.4.3.6, and EN 300 743, 7).
#[derive(Clone, Copy, Debug, PartialEq, Eq, Error)]
pub enum PesFault {
    /// The bytes do not begin with the start code prefix (packet_start_code_prefix), or are too few
    /// to hold stream id and length.
    #[error("no start code prefix")]
    NoPrefix,
    /// The stream id (stream_id), which is here, is not that of private stream 1.
    #[error("stream id {0} is not private stream 1")]
    OtherStream(u8),
    /// The header (PES_header_data_length) or the length (PES_packet_length) does not fit the
    /// bytes.
    #[error("the PES header is not well formed")]
    BadHeader,
    /// The payload is scrambled (PES_scrambling_control).
    #[error("the PES packet is scrambled")]
    Scrambled,
    /// The packet has no presentation time (PTS_DTS_flags).
    #[error("the PES packet has no presentation time")]
    NoPts,
    /// A marker bit (marker_bit) of the presentation time is 0.
    #[error("a marker bit of the presentation time is 0")]
    BadMarker,
    /// The data field begins with this byte (data_identifier), or is of another subtitle_stream_id;
    /// it has no subtitle segments.
    #[error("the data field begins with {0} and has no subtitle segments")]
    OtherField(u8),
}
