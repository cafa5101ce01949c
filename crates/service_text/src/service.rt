ghost use Rattle.std.specs.Prelude.{◌≡◌};
ghost use Rattle.service_text.specs.declared.service.SubtitleService.{SubtitleService};

/// A service of subtitles, as an entry of a descriptor of subtitles lists it (EN 300 468, 6.2.41).
#[derive(Clone, Copy, Debug, PartialEq, Eq)]
pub struct SubtitleService {
    /// The PID of its stream (elementary_PID).
    pub pid: u16,
    /// Its composition page.
    pub page: u16,
    /// The number of its programme (program_number).
    pub number: u16,
    /// Its ancillary page.
    pub ancillary: u16,
    /// The three letters of its language (ISO_639_language_code).
    pub language: [u8; 3],
    /// Its type (subtitling_type).
    pub kind: u8,
}

impl SubtitleService {
    ghost use Rattle.service_text.specs.Order.{comes_before, has_lower_number, has_lower_page};

    /// Whether it is told before another one: by PID, page, programme and ancillary page.
    pub(crate) fn comes_before(&self, other: &SubtitleService) -> bool
        ensures { result ≡ comes_before self.now other.now }
    {
        self.pid < other.pid || self.pid == other.pid && self.has_lower_page(other)
    }

    fn has_lower_page(&self, other: &SubtitleService) -> bool
        ensures { result ≡ has_lower_page self.now other.now }
    {
        self.page < other.page || self.page == other.page && self.has_lower_number(other)
    }

    fn has_lower_number(&self, other: &SubtitleService) -> bool
        ensures { result ≡ has_lower_number self.now other.now }
    {
        self.number < other.number
            || self.number == other.number && self.ancillary < other.ancillary
    }
}
