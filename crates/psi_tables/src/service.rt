/// A service with a subtitle stream, as programme tables name it.
#[derive(Clone, Copy, Debug, PartialEq, Eq)]
pub struct Service {
    /// The number of the service (program_number).
    pub number: u16,
    /// The PID of the service's PMT (program_map_PID), below 8,192.
    pub pmt: u16,
    /// The PID of the subtitle stream (elementary_PID), below 8,192.
    pub pid: u16,
    /// The page of the subtitles (composition_page_id and ancillary_page_id).
    pub page: u16,
    /// The language of the subtitles (ISO_639_language_code).
    pub language: [u8; 3],
}
