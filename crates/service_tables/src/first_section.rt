ghost use Rattle.std.specs.Prelude.{◌≡◌};
ghost use Rattle.psi_tables.specs.Sections.{contents};
ghost use Rattle.service_tables.specs.Tables.{is_map_of, is_pat, is_wanted};

use psi_tables::{Section, read_section};
use section_reader::SectionTaker;
use std::alloc::Global;
use std::marker::Model;
use sub_base::NoMemory;

/// The bytes of the longest section.
const ROOM: usize = 4_098;

/// A table of which the first valid section is looked for.
#[derive(Clone, Copy, Debug, PartialEq, Eq)]
pub enum Table {
    /// The PAT.
    Pat,
    /// The PMT of the programme with this number.
    Pmt(u16),
}

impl Table {
    /// Whether a section is a valid one of this table.
    pub(crate) fn is_in(self, section: &[u8]) -> bool
        ensures { result ≡ is_wanted self section.now }
    {
        let Ok(section) = read_section(section) else {
            return false;
        };
        match self {
            Table::Pat => is_pat(section),
            Table::Pmt(number) => is_map_of(number, section),
        }
    }
}

fn is_pat(section: Section<'_>) -> bool
    ensures { result ≡ is_pat (contents section.entry) }
{
    match section {
        Section::Pat { .. } => true,
        Section::Pmt { .. } => false,
    }
}

fn is_map_of(service: u16, section: Section<'_>) -> bool
    ensures { result ≡ is_map_of service (contents section.entry) }
{
    match section {
        Section::Pat { .. } => false,
        Section::Pmt { number, .. } => number == service,
    }
}

/// The first valid section of a table among those that it takes, in memory of a fixed size.
#[derive(Drop)]
pub(crate) struct FirstSection {
    table: Table,
    holds: bool,
    bytes: Vec<u8>,
}

impl Model for FirstSection {
    ghost use Rattle.std.specs.Prelude.{◌≤◌, length, Some, None, if◌then◌else◌};
    ghost use Rattle.std.specs.Vec.{vec_capacity};
    ghost use Rattle.service_tables.specs.First.{FirstFound};

    ghost Value = { FirstFound };

    ghost view = { λ f. record {
      table = f.table;
      section = if f.holds then Some f.bytes.items else None;
    } };

    ghost invariant = { λ f. 4098 ≤ vec_capacity f.bytes };
}

impl FirstSection {
    ghost use Rattle.std.specs.Prelude.{◌≡◌, ◌≤◌, length, IfOk, None, Some};
    ghost use Rattle.std.specs.Option.{is_some, option_copied};
    ghost use Rattle.section_reader.specs.Sections.{LONGEST_SECTION};
    ghost use Rattle.service_tables.specs.Tables.{is_wanted};

    /// What took no section. All its memory is taken here.
    pub(crate) fn make(alloc: Global, table: Table) -> Result<FirstSection, NoMemory>
        ensures { IfOk result (λ first. first ≡ record { table = table; section = None }) }
    {
        Ok(FirstSection {
            table,
            holds: false,
            bytes: Vec::with_capacity(alloc, ROOM)?,
        })
    }

    /// The section.
    pub(crate) fn section(&self) -> Option<&[u8]>
        ensures { option_copied result ≡ self.now.section }
    {
        if self.holds {
            Some(self.bytes.as_slice())
        } else {
            None
        }
    }

    /// Whether there is one.
    pub(crate) fn is_found(&self) -> bool
        ensures { result ≡ is_some self.now.section }
    {
        self.holds
    }

    /// Whether a section is a valid one of the table.
    fn is_sought(&self, section: &[u8]) -> bool
        ensures { result ≡ is_wanted self.now.table section.now }
    {
        self.table.is_in(section)
    }

    /// Keeps a section.
    fn keep(&mut self, section: &[u8])
        requires { length section.now ≤ LONGEST_SECTION }
        ensures { self.new ≡ record self.old { section = Some section.now } }
    {
        self.bytes.clear();
        self.bytes.extend_from_slice(section).unwrap();
        self.holds = true;
    }
}

impl SectionTaker for FirstSection {
    ghost use Rattle.service_tables.specs.First.{HasFirst};
    ghost use Rattle.service_tables.specs.declared.first_section.Table.{Table};

    ghost stands = { HasFirst };

    ghost Kept = { Table };

    ghost kept = { λ first. first.table };

    fn take_section(&mut self, section: &[u8]) {
        if self.is_found() {
            return;
        }
        if self.is_sought(section) {
            self.keep(section);
        }
    }
}
