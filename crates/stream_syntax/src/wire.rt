/// The bytes of a transport packet (ISO/IEC 13818-1, 2.4.3.2).
pub const PACKET_LENGTH: usize = 188;

/// The bytes of a transport packet behind its head, where it has no adaptation field.
pub const PAYLOAD_LENGTH: usize = 184;

/// The first byte of a transport packet (sync_byte).
pub const SYNC_BYTE: u8 = 0x47;

/// The PID of null packets.
pub const NULL_PID: u16 = 0x1FFF;

/// The stream id of a PES packet of subtitles: private_stream_1 (ISO/IEC 13818-1, table 2-22).
pub const PRIVATE_STREAM_1: u8 = 0xBD;

/// Presentation times (PTS) have 33 bits: they are sent modulo this number of ticks (ISO/IEC
/// 13818-1, 2.4.3.7).
pub const TIME_ROUND: u64 = 8_589_934_592;

/// Half of that: a time is taken as a later one where it is fewer ticks ahead.
pub const HALF_ROUND: u64 = 4_294_967_296;

/// Ticks that go on past every round stay below this number, 2 to the 62.
pub const TICK_LIMIT: u64 = 4_611_686_018_427_387_904;

/// The first byte of a PES data field of subtitles (EN 300 743, clause 7.1, data_identifier).
pub const DATA_IDENTIFIER: u8 = 0x20;

/// The second byte of a PES data field of subtitles (subtitle_stream_id).
pub const SUBTITLE_STREAM: u8 = 0x00;

/// What ends the segments of a PES data field (end_of_PES_data_field_marker).
pub const END_OF_FIELD: u8 = 0xFF;

/// The first byte of a segment (EN 300 743, clause 7.2, sync_byte).
pub const SEGMENT_SYNC: u8 = 0x0F;

/// The segment type of a page composition (EN 300 743, table 7, as the types below).
pub const PAGE_COMPOSITION: u8 = 0x10;

/// The segment type of a region composition.
pub const REGION_COMPOSITION: u8 = 0x11;

/// The segment type of a CLUT definition.
pub const CLUT_DEFINITION: u8 = 0x12;

/// The segment type of object data.
pub const OBJECT_DATA: u8 = 0x13;

/// The segment type of a display definition.
pub const DISPLAY_DEFINITION: u8 = 0x14;

/// The segment type of the end of a display set.
pub const END_OF_DISPLAY_SET: u8 = 0x80;

/// The columns of the display where no display definition comes (EN 300 743, clause 7.2.1).
pub const DEFAULT_DISPLAY_WIDTH: u32 = 720;

/// The rows of the display where no display definition comes.
pub const DEFAULT_DISPLAY_HEIGHT: u32 = 576;

/// The type of a sub-block with codes of 2 bits a pixel (EN 300 743, data_type of a
/// pixel-data sub-block, as the types below).
pub const TWO_BIT_STRING: u8 = 0x10;

/// The type of a sub-block with codes of 4 bits a pixel.
pub const FOUR_BIT_STRING: u8 = 0x11;

/// The type of a sub-block with codes of 8 bits a pixel.
pub const EIGHT_BIT_STRING: u8 = 0x12;

/// The type of a map table from 2 to 4 bits.
pub const TWO_TO_FOUR_TABLE: u8 = 0x20;

/// The type of a map table from 2 to 8 bits.
pub const TWO_TO_EIGHT_TABLE: u8 = 0x21;

/// The type of a map table from 4 to 8 bits.
pub const FOUR_TO_EIGHT_TABLE: u8 = 0x22;

/// The sub-block that ends a line (end_of_object_line_code).
pub const END_OF_LINE: u8 = 0xF0;
