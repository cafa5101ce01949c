ghost use Rattle.std.specs.Prelude.{◌≡◌, ◌==◌, ◌&&◌, not};
ghost use Rattle.std.specs.List.{list_any};
ghost use Rattle.psi_tables.specs.Loops.{streams_of};
ghost use Rattle.service_tables.specs.Tables.{streams_in};

use crate::first_section::{FirstSection, Table};
use psi_tables::{ProgrammeEntry, Section, clock_pid, first_stream, read_section};
use section_reader::SectionReader;
use std::alloc::Global;
use std::marker::Model;
use sub_base::NoMemory;

/// A programme that a PAT lists, with its first valid PMT once that has come, in memory of a fixed
/// size.
#[derive(Drop)]
pub struct Programme {
    number: u16,
    sections: SectionReader,
    map: FirstSection,
}

impl Model for Programme {
    ghost use Rattle.service_tables.specs.Reading.{ProgrammeReading};

    ghost Value = { ProgrammeReading };

    ghost view = { λ p. record { number = p.number; sections = p.sections; map = p.map } };
}

impl Programme {
    ghost use Rattle.std.specs.Prelude.{◌≡◌, ◌&&◌, not, ◌++◌, ◌∷◌, [], ℕ, IfOk, List, false};
    ghost use Rattle.std.specs.Option.{is_some};
    ghost use Rattle.psi_tables.specs.Loops.{streams_of};
    ghost use Rattle.psi_tables.specs.Walking.{entry_value};
    ghost use Rattle.service_tables.specs.Clock.{clock_at, lists};
    ghost use Rattle.service_tables.specs.Reading.{HasReadMap, entry_of, map_of};
    ghost use Rattle.service_tables.specs.Tables.{streams_at};

    /// The programme of an entry, whose PMT is looked for in the packets that follow. All its
    /// memory is taken here.
    pub(crate) fn make(alloc: Global, entry: ProgrammeEntry) -> Result<Programme, NoMemory>
        ensures entry { IfOk result (λ programme. entry_of programme ≡ entry_value entry) }
        ensures read { IfOk result (λ programme. HasReadMap programme []) }
    {
        Ok(Programme {
            number: entry.number,
            sections: SectionReader::make(alloc, entry.pid)?,
            map: FirstSection::make(alloc, Table::Pmt(entry.number))?,
        })
    }

    /// Its number (program_number).
    pub fn number(&self) -> u16
        ensures { result ≡ self.now.number }
    {
        self.number
    }

    /// Takes the next packet: whether its PMT came with it.
    pub(crate) fn feed(&mut self, packet: &[u8; 188]) -> bool
        ensures entry { entry_of self.new ≡ entry_of self.old }
        ensures read { (packets : List (List ℕ)) → HasReadMap self.old packets
            → HasReadMap self.new (packets ++ packet.now ∷ []) }
        ensures came { result
            ≡ (not (is_some self.old.map.section) && is_some self.new.map.section) }
        ensures same { result ≡ false → (packets : List (List ℕ)) → HasReadMap self.old packets
            → map_of self.new ≡ map_of self.old }
    {
        let was_found = self.map.is_found();
        self.sections.feed(packet, &mut self.map);
        has_come(was_found, self.map.is_found())
    }

    /// The bytes of the streams that its PMT lists, none where none has come.
    pub fn streams(&self) -> &[u8]
        ensures { streams_of result.now ≡ streams_at self.now.map.section }
    {
        match self.map.section() {
            Some(section) => streams_in(section),
            None => &[],
        }
    }

    /// Whether its PMT lists a stream with that PID.
    pub(crate) fn lists(&self, pid: u16) -> bool
        ensures { result ≡ lists pid (map_of self.now) }
    {
        has_pid(self.streams(), pid)
    }

    /// The PID of its clock (PCR_PID), where its PMT names one.
    pub(crate) fn clock_pid(&self) -> Option<u16>
        ensures { result ≡ clock_at (map_of self.now) }
    {
        match self.map.section() {
            Some(section) => clock_pid(section),
            None => None,
        }
    }
}

/// Whether a table is found now that was not before.
fn has_come(was_found: bool, is_found: bool) -> bool
    ensures { result ≡ (not was_found && is_found) }
{
    !was_found && is_found
}

/// The bytes of the streams of a PMT's section.
fn streams_in(section: &[u8]) -> &[u8]
    ensures { streams_of result.now ≡ streams_in section.now }
{
    let Ok(section) = read_section(section) else {
        return &[];
    };
    match section {
        Section::Pat { .. } => &[],
        Section::Pmt { streams, .. } => streams,
    }
}

/// Whether a stream with that PID is among streams.
#[tactic(auto, using(crate::proofs::StreamLaws::any_stream_next, crate::proofs::StreamLaws::any_stream_end))]
fn has_pid(streams: &[u8], pid: u16) -> bool
    ensures { result ≡ list_any (λ stream. stream.pid == pid) (streams_of streams.now) }
{
    let mut rest = streams;
    while let Some((stream, behind)) = first_stream(rest) {
        if stream.pid == pid {
            return true;
        }
        rest = behind;
    }
    false
}
