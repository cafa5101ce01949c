use thiserror::Error;

/// Why bytes begin with no section that is taken (ISO/IEC 13818-1, 2.4.4), in the order of the
/// tests.
#[derive(Clone, Copy, Debug, PartialEq, Eq, Error)]
pub enum SectionFault {
    /// The bytes, so many, end before the section does.
    #[error("cut short after {have} bytes")]
    Cut { have: u32 },
    /// The length (section_length) is below 9 or over 1,021.
    #[error("a length of {length}")]
    BadLength { length: u16 },
    /// The CRC of the whole section is this, and not 0.
    #[error("a CRC of {crc}")]
    BadCrc { crc: u32 },
    /// The table id is that of no PAT and of no PMT.
    #[error("a table with the id {0}")]
    OtherTable(u8),
    /// The section is not in force yet (current_next_indicator 0).
    #[error("a table that is not current")]
    NotCurrent,
    /// An entry, a stream or a descriptor is cut, or a PMT has no room for its head.
    #[error("an entry that is cut")]
    BadLoop,
}
