ghost use Rattle.std.specs.Prelude.{◌≡◌, ◌+◌, ◌≤◌, List, length, IfOk, IfSome};
ghost use Rattle.std.specs.Option.{option_copied};
ghost use Rattle.psi_tables.specs.Sections.{whole_section};
ghost use Rattle.section_reader.specs.Sections.{LONGEST_SECTION};
ghost use Rattle.section_reader.specs.Private.Following.{begins_section as begins};

use crate::kind::{Kind, kind_of};
use crate::taker::SectionTaker;
use byteorder::{BigEndian, ByteOrder};
use std::alloc::Global;
use std::marker::Model;
use sub_base::NoMemory;
use ts_packets::Payload;

/// The bytes of the longest section, and of a payload.
const ROOM: usize = 4_282;

/// What stands in the place of a table id where stuffing begins.
const NO_TABLE: u8 = 0xFF;

/// Puts the sections of one PID together out of transport packets, in memory of a fixed size.
#[derive(Drop)]
pub struct SectionReader {
    pid: u16,
    counter: Option<u8>,
    holds: bool,
    bytes: Vec<u8>,
}

impl Model for SectionReader {
    ghost use Rattle.std.specs.Prelude.{◌≡◌, ◌+◌, ◌≤◌, true, length, Some, None, if◌then◌else◌};
    ghost use Rattle.std.specs.Vec.{vec_capacity};
    ghost use Rattle.section_reader.specs.Reading.{SectionReading};

    ghost Value = { SectionReading };

    ghost view = { λ r. record {
      pid = r.pid;
      last = r.counter;
      hand = if r.holds then Some r.bytes.items else None;
    } };

    ghost invariant = { λ r. (4282 ≤ vec_capacity r.bytes)
        × (r.holds ≡ true → length r.bytes.items ≤ 4098) };
}

impl SectionReader {
    ghost use Rattle.std.specs.Prelude.{◌≡◌, ℕ, ◌≤◌, List, [], length, IfOk, Some, None};
    ghost use Rattle.stream_syntax.specs.Units.{Next, succession};
    ghost use Rattle.stream_syntax.specs.declared.wire.TheConstants.{PAYLOAD_LENGTH};
    ghost use Rattle.section_reader.specs.Reading.{IsReadingOf, ReadsSectionsOn, Takes};
    ghost use Rattle.section_reader.specs.Sections.{by_counter, following, grown, sections_at, started};
    ghost use Rattle.section_reader.specs.Sections.{with_payload};
    ghost use Rattle.section_reader.specs.Private.Steps.{Ends, StepsOn};

    /// A reader of that PID that was fed no packet. All its memory is taken here.
    pub fn make(alloc: Global, pid: u16) -> Result<SectionReader, NoMemory>
        ensures pid { IfOk result (λ reader. reader.pid ≡ pid) }
        ensures stands { IfOk result (λ reader. IsReadingOf reader []) }
    {
        Ok(SectionReader {
            pid,
            counter: None,
            holds: false,
            bytes: Vec::with_capacity(alloc, ROOM)?,
        })
    }

    /// Begins anew with another PID, as if no packet had been fed.
    pub fn restart(&mut self, pid: u16)
        ensures pid { self.new.pid ≡ pid }
        ensures stands { IsReadingOf self.new [] }
    {
        self.pid = pid;
        self.counter = None;
        self.holds = false;
    }

    /// The PID.
    pub fn pid(&self) -> u16
        ensures { result ≡ self.now.pid }
    {
        self.pid
    }

    /// Takes the next packet, and hands on the sections that end in it.
    pub fn feed<T: SectionTaker>(&mut self, packet: &[u8; 188], taker: &mut T)
        ensures goes_on { ReadsSectionsOn self.old self.new packet.now }
        ensures taken { (before : List (List ℕ)) → IsReadingOf self.old before
            → Takes T.stands T.kept taker.old taker.new
            (sections_at self.old.pid before packet.now) }
    {
        self.step(packet, taker);
    }

    fn step<T: SectionTaker>(&mut self, packet: &[u8; 188], taker: &mut T)
        ensures { StepsOn T.stands T.kept self.old self.new taker.old taker.new packet.now }
    {
        match kind_of(self.pid, packet) {
            Kind::Other => {}
            Kind::Broken => self.drop_section(),
            Kind::Empty => {}
            Kind::Payload(payload) => self.take(payload, taker),
        }
    }

    /// Drops the section in hand.
    fn drop_section(&mut self)
        ensures { self.new ≡ record self.old { hand = None } }
    {
        self.holds = false;
    }

    /// Takes a packet's payload by its counter.
    fn take<T: SectionTaker>(&mut self, payload: Payload<'_>, taker: &mut T)
        requires { length payload.bytes.now ≤ PAYLOAD_LENGTH }
        ensures ends { let order = succession self.old.last payload.entry.counter in
            Ends T.stands T.kept self.old self.new taker.old taker.new
            (by_counter self.old.hand order payload.entry.start payload.entry.bytes.now) }
        ensures last { self.new.last ≡ Some payload.entry.counter }
    {
        let last = self.counter;
        self.counter = Some(payload.counter);
        let Some(last) = last else {
            return self.follow(payload, taker);
        };
        // What is kept is below 16. Taken modulo 16 it need not be known to be.
        let expected = (last % 16 + 1) % 16;
        // Each packet may be sent twice (ISO/IEC 13818-1, 2.4.3.3).
        if payload.counter == last {
            return;
        }
        if payload.counter != expected {
            self.holds = false;
        }
        self.follow(payload, taker);
    }

    /// Takes a payload behind the bytes before it.
    fn follow<T: SectionTaker>(&mut self, payload: Payload<'_>, taker: &mut T)
        requires { length payload.bytes.now ≤ PAYLOAD_LENGTH }
        ensures ends { Ends T.stands T.kept self.old self.new taker.old taker.new
            (with_payload self.old.hand payload.entry.start payload.entry.bytes.now) }
        ensures last { self.new.last ≡ self.old.last }
    {
        if payload.start {
            self.start(payload.bytes, taker);
        } else {
            self.grow(payload.bytes, taker);
        }
    }

    /// Takes a payload that begins with a pointer.
    fn start<T: SectionTaker>(&mut self, payload: &[u8], taker: &mut T)
        requires { length payload.now ≤ PAYLOAD_LENGTH }
        ensures ends { Ends T.stands T.kept self.old self.new taker.old taker.new
            (started self.old.hand payload.now) }
        ensures last { self.new.last ≡ self.old.last }
    {
        let Some((pointer, rest)) = payload.split_first() else {
            return self.drop_section();
        };
        let pointer = usize::from(*pointer);
        if pointer > rest.len() {
            return self.drop_section();
        }
        let (ends, follows) = rest.split_at(pointer);
        self.grow(ends, taker);
        self.begin(follows, taker);
    }

    /// Puts these bytes behind those of the section in hand.
    fn grow<T: SectionTaker>(&mut self, more: &[u8], taker: &mut T)
        requires { length more.now ≤ PAYLOAD_LENGTH }
        ensures ends { Ends T.stands T.kept self.old self.new taker.old taker.new
            (grown self.old.hand more.now) }
        ensures last { self.new.last ≡ self.old.last }
    {
        if !self.holds {
            return;
        }
        // The buffer was made with room for the longest section and one payload more.
        self.bytes.extend_from_slice(more).unwrap();
        if let Some(section) = section_in(&self.bytes) {
            self.holds = false;
            taker.take_section(section);
        }
    }

    /// Takes sections that follow one another, up to stuffing.
    fn begin<T: SectionTaker>(&mut self, bytes: &[u8], taker: &mut T)
        requires { length bytes.now ≤ PAYLOAD_LENGTH }
        ensures ends { Ends T.stands T.kept self.old self.new taker.old taker.new
            (following (length bytes.now) bytes.now) }
        ensures last { self.new.last ≡ self.old.last }
    {
        self.holds = false;
        let mut rest = bytes;
        while begins_section(rest) {
            let Some(section) = section_in(rest) else {
                return self.keep(rest);
            };
            taker.take_section(section);
            (_, rest) = rest.split_at(section.len());
        }
    }

    /// Keeps these bytes of a section in hand.
    fn keep(&mut self, bytes: &[u8])
        requires { length bytes.now ≤ PAYLOAD_LENGTH }
        ensures { self.new ≡ record self.old { hand = Some bytes.now } }
    {
        self.bytes.clear();
        self.bytes.extend_from_slice(bytes).unwrap();
        self.holds = true;
    }
}

/// Whether a section begins these bytes, and no stuffing.
fn begins_section(bytes: &[u8]) -> bool
    ensures { result ≡ begins bytes.now }
{
    match bytes.first() {
        Some(table) => *table != NO_TABLE,
        None => false,
    }
}

/// The section that begins these bytes, where all of it is there.
fn section_in(bytes: &[u8]) -> Option<&[u8]>
    ensures section { option_copied result ≡ whole_section bytes.now }
    ensures long { IfSome result (λ section. length section.now ≤ LONGEST_SECTION) }
{
    if bytes.len() < 3 {
        return None;
    }
    let size = 3 + usize::from(BigEndian::read_u16(&bytes[1..3]) & 0x0FFF);
    if bytes.len() < size {
        None
    } else {
        Some(&bytes[..size])
    }
}
