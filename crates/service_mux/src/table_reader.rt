use crate::sought::Sought;
use section_reader::{SectionReader, SectionTaker};
use std::alloc::Global;
use std::marker::Model;
use sub_base::NoMemory;

/// The PID that the first section names which names one of what is looked for.
#[derive(Clone, Copy)]
pub(crate) struct Named {
    sought: Sought,
    pid: Option<u16>,
}

impl SectionTaker for Named {
    ghost use Rattle.service_mux.specs.Private.Naming.{HasNamed};
    ghost use Rattle.service_mux.specs.declared.sought.Sought.{Sought};

    ghost stands = { HasNamed };

    ghost Kept = { Sought };

    ghost kept = { λ named. named.sought };

    fn take_section(&mut self, section: &[u8]) {
        self.pid = self.pid.or(self.sought.named_in(section));
    }
}

/// Looks through the sections of one PID, out of transport packets, for the first one that names a
/// PID, in memory of a fixed size.
#[derive(Drop)]
pub struct TableReader {
    sections: SectionReader,
    sought: Sought,
}

impl Model for TableReader {
    ghost use Rattle.service_mux.specs.Reading.{TableReading};

    ghost Value = { TableReading };

    ghost view = { λ r. record { sections = r.sections; sought = r.sought } };
}

impl TableReader {
    ghost use Rattle.std.specs.Prelude.{◌≡◌, ℕ, List, [], IfOk};
    ghost use Rattle.sub_base.specs.Lists.{first_given};
    ghost use Rattle.section_reader.specs.Reading.{IsReadingOf};
    ghost use Rattle.section_reader.specs.Sections.{sections_at};
    ghost use Rattle.service_mux.specs.Reading.{ReadsOn, named_in};

    /// A reader that was fed no packet. All its memory is taken here.
    pub fn make(alloc: Global, pid: u16, sought: Sought) -> Result<TableReader, NoMemory>
        ensures pid { IfOk result (λ reader. reader.sections.pid ≡ pid) }
        ensures sought { IfOk result (λ reader. reader.sought ≡ sought) }
        ensures stands { IfOk result (λ reader. IsReadingOf reader.sections []) }
    {
        Ok(TableReader {
            sections: SectionReader::make(alloc, pid)?,
            sought,
        })
    }

    /// Begins anew with another PID, as if no packet had been fed.
    pub fn restart(&mut self, pid: u16, sought: Sought)
        ensures pid { self.new.sections.pid ≡ pid }
        ensures sought { self.new.sought ≡ sought }
        ensures stands { IsReadingOf self.new.sections [] }
    {
        self.sections.restart(pid);
        self.sought = sought;
    }

    /// Takes the next packet. The answer is the PID that the first section names that ends in it
    /// and names one.
    pub fn feed(&mut self, packet: &[u8; 188]) -> Option<u16>
        ensures goes_on { ReadsOn self.old self.new packet.now }
        ensures named { (before : List (List ℕ)) → IsReadingOf self.old.sections before
            → result ≡ first_given (named_in self.old.sought)
            (sections_at self.old.sections.pid before packet.now) }
    {
        let mut named = Named {
            sought: self.sought,
            pid: None,
        };
        self.sections.feed(packet, &mut named);
        named.pid
    }
}
