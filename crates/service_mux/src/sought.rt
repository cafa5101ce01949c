ghost use Rattle.std.specs.Prelude.{◌≡◌};
ghost use Rattle.service_mux.specs.Reading.{named_in};

use psi_tables::read_section;

/// What is looked for in the sections of a PID.
#[derive(Clone, Copy, Debug, PartialEq, Eq)]
pub enum Sought {
    /// The PID of the PMT of the service with this number.
    Table(u16),
    /// The PID of the subtitles of the service with this number.
    Subtitles(u16),
}

impl Sought {
    /// The PID that a section names, where it is a valid one of what is looked for.
    pub fn named_in(self, section: &[u8]) -> Option<u16>
        ensures { result ≡ named_in self section.now }
    {
        let Ok(section) = read_section(section) else {
            return None;
        };
        match self {
            Sought::Table(service) => section.pmt_of(service),
            Sought::Subtitles(service) => section.subtitles_of(service),
        }
    }
}
