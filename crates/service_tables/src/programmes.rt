ghost use Rattle.std.specs.Prelude.{◌≡◌, ◌==◌, ◌&&◌, not, ◌++◌, ◌∷◌, [], ℕ, IfOk, List, true, false, map};
ghost use Rattle.std.specs.List.{list_any};
ghost use Rattle.psi_tables.specs.Loops.{entries_of};
ghost use Rattle.service_tables.specs.Clock.{clock_among};
ghost use Rattle.service_tables.specs.Reading.{AreListed, HasCome, HaveReadMaps, entry_of, map_of};
ghost use Rattle.service_tables.specs.Tables.{entries_in};

use crate::first_section::{FirstSection, Table};
use crate::programme::Programme;
use psi_tables::{Section, first_entry, read_section};
use section_reader::SectionReader;
use std::alloc::Global;
use std::marker::Model;
use sub_base::NoMemory;

/// The PID of the PAT (ISO/IEC 13818-1, table 2-3).
const TABLE_PID: u16 = 0;

/// The number that stands in a PAT beside the PID of the network's table.
const NETWORK: u16 = 0;

/// The programmes of a stream: those that its first valid PAT lists, each with its first valid PMT.
/// Later tables change nothing.
///
/// A programme takes memory of a fixed size when the PAT has come. Where none is found, the
/// programmes cannot be told.
#[derive(Drop)]
pub struct Programmes {
    alloc: Global,
    sections: SectionReader,
    pat: FirstSection,
    programmes: Vec<Programme>,
    is_wanting: bool,
}

impl Model for Programmes {
    ghost use Rattle.service_tables.specs.Reading.{ProgrammesRead};

    ghost Value = { ProgrammesRead };

    ghost view = { λ p. record {
      sections = p.sections;
      pat = p.pat;
      programmes = p.programmes.items;
      is_wanting = p.is_wanting;
    } };
}

impl Programmes {
    ghost use Rattle.std.specs.Prelude.{◌≡◌, ◌++◌, ◌∷◌, [], ℕ, IfOk, List, None, true, false, map};
    ghost use Rattle.std.specs.Option.{is_some};
    ghost use Rattle.service_tables.specs.Clock.{clock_pid};
    ghost use Rattle.service_tables.specs.Reading.{HasCome, HasRead, map_of};
    ghost use Rattle.service_tables.specs.Tables.{programme_maps};

    /// What was fed no packet.
    pub fn make(alloc: Global) -> Result<Programmes, NoMemory>
        ensures { IfOk result (λ programmes. HasRead programmes []) }
    {
        Ok(Programmes {
            alloc,
            sections: SectionReader::make(alloc, TABLE_PID)?,
            pat: FirstSection::make(alloc, Table::Pat)?,
            programmes: Vec::new(alloc),
            is_wanting: false,
        })
    }

    /// Whether no memory was found for the programmes.
    pub fn is_wanting(&self) -> bool
        ensures { result ≡ self.now.is_wanting }
    {
        self.is_wanting
    }

    /// Takes the next packet of the stream: whether the PAT or a PMT that is looked for came with
    /// it. Where none did, the programmes are as before.
    pub fn feed(&mut self, packet: &[u8; 188]) -> bool
        ensures read { (packets : List (List ℕ)) → HasRead self.old packets
            → HasRead self.new (packets ++ packet.now ∷ []) }
        ensures pat { self.old.pat.section ≡ None → result ≡ is_some self.new.pat.section }
        ensures came { is_some self.old.pat.section ≡ true → result ≡ true
            → HasCome self.old.programmes self.new.programmes }
        ensures same { result ≡ false → self.new.is_wanting ≡ false
            → (packets : List (List ℕ)) → HasRead self.old packets
            → programme_maps (packets ++ packet.now ∷ []) ≡ programme_maps packets }
    {
        if self.pat.is_found() {
            feed_each(&mut self.programmes, packet)
        } else {
            self.look_for_pat(packet);
            self.pat.is_found()
        }
    }

    /// Takes a packet while no PAT has come.
    fn look_for_pat(&mut self, packet: &[u8; 188])
        requires { self.old.pat.section ≡ None }
        ensures { (packets : List (List ℕ)) → HasRead self.old packets
            → HasRead self.new (packets ++ packet.now ∷ []) }
    {
        self.sections.feed(packet, &mut self.pat);
        if let Some(pat) = self.pat.section() {
            match listed_in(self.alloc, pat) {
                Ok(programmes) => self.programmes = programmes,
                Err(_) => self.is_wanting = true,
            }
        }
    }

    /// The programmes, in the order of the PAT.
    pub fn programmes(&self) -> &[Programme]
        ensures { (packets : List (List ℕ)) → self.now.is_wanting ≡ false
            → HasRead self.now packets
            → programme_maps packets ≡ map map_of result.now }
    {
        self.programmes.as_slice()
    }

    /// The PID of the clock (PCR_PID) of the first programme whose PMT lists that PID. A walk over
    /// the PMTs.
    pub fn clock_pid_of(&self, pid: u16) -> Option<u16>
        ensures { (packets : List (List ℕ)) → self.now.is_wanting ≡ false
            → HasRead self.now packets
            → result ≡ clock_pid packets pid }
    {
        clock_among(self.programmes(), pid)
    }
}

/// Feeds a packet to each programme: whether the PMT of any came with it.
fn feed_each(programmes: &mut Vec<Programme>, packet: &[u8; 188]) -> bool
    ensures entries { map entry_of programmes.new.items ≡ map entry_of programmes.old.items }
    ensures read { (packets : List (List ℕ)) → HaveReadMaps programmes.old.items packets
        → HaveReadMaps programmes.new.items (packets ++ packet.now ∷ []) }
    ensures came { result ≡ true → HasCome programmes.old.items programmes.new.items }
    ensures same { result ≡ false
        → (packets : List (List ℕ)) → HaveReadMaps programmes.old.items packets
        → map map_of programmes.new.items ≡ map map_of programmes.old.items }
{
    feed_all(programmes.as_mut_slice(), packet)
}

fn feed_all(programmes: &mut [Programme], packet: &[u8; 188]) -> bool
    ensures entries { map entry_of programmes.new ≡ map entry_of programmes.old }
    ensures read { (packets : List (List ℕ)) → HaveReadMaps programmes.old packets
        → HaveReadMaps programmes.new (packets ++ packet.now ∷ []) }
    ensures came { result ≡ true → HasCome programmes.old programmes.new }
    ensures same { result ≡ false
        → (packets : List (List ℕ)) → HaveReadMaps programmes.old packets
        → map map_of programmes.new ≡ map map_of programmes.old }
{
    let mut came = false;
    for programme in programmes.iter_mut() {
        came |= programme.feed(packet);
    }
    came
}

/// The programmes that the section of a PAT lists.
fn listed_in(alloc: Global, pat: &[u8]) -> Result<Vec<Programme>, NoMemory>
    ensures { IfOk result (λ programmes. AreListed pat.now [] programmes.items) }
{
    let mut programmes = Vec::new(alloc);
    let mut rest = entries_in(pat);
    while let Some((entry, behind)) = first_entry(rest) {
        if is_new(entry.number, &programmes) {
            programmes.push(Programme::make(alloc, entry)?)?;
        }
        rest = behind;
    }
    Ok(programmes)
}

/// The bytes of the entries of a PAT's section.
fn entries_in(section: &[u8]) -> &[u8]
    ensures { entries_of result.now ≡ entries_in section.now }
{
    let Ok(section) = read_section(section) else {
        return &[];
    };
    match section {
        Section::Pat { entries, .. } => entries,
        Section::Pmt { .. } => &[],
    }
}

/// Whether an entry with that number lists a programme, and one that is not there yet.
fn is_new(number: u16, programmes: &[Programme]) -> bool
    ensures { result ≡ (not (number == 0)
        && not (list_any (λ programme. programme.number == number) programmes.now)) }
{
    number != NETWORK && !has_number(programmes, number)
}

/// Whether a programme with that number is among programmes.
fn has_number(programmes: &[Programme], number: u16) -> bool
    ensures { result ≡ list_any (λ programme. programme.number == number) programmes.now }
{
    programmes
        .iter()
        .any(|programme| programme.number() == number)
}

/// The PID of the clock of the first programme that lists that PID.
#[tactic(auto, using(crate::proofs::ClockLaws::clock_next))]
fn clock_among(programmes: &[Programme], pid: u16) -> Option<u16>
    ensures { result ≡ clock_among pid (map map_of programmes.now) }
{
    for programme in programmes {
        if programme.lists(pid) {
            return programme.clock_pid();
        }
    }
    None
}
