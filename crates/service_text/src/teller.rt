ghost use Rattle.std.specs.Prelude.{◌≡◌};

use crate::entries::list_programmes;
use crate::lines::put_services;
use crate::list::ServiceList;
use command_text::TextBuffer;
use packet_walk::PacketTeller;
use pid_text::Pids;
use service_tables::Programmes;
use std::alloc::Global;
use stream_syntax::PacketFault;
use sub_base::{NoMemory, Sink};

/// What tells of the PIDs of a stream, and of the services that its tables list: it takes the
/// packets, and puts out the text of them all once it is asked to.
///
/// A PID and a programme take memory of a fixed size as they are met. Where none is found, the text
/// cannot be told.
#[derive(Drop)]
pub struct PidTeller {
    pids: Pids,
    programmes: Programmes,
    services: ServiceList,
}

impl PidTeller {
    ghost use Rattle.std.specs.Prelude.{◌≡◌, ◌||◌, ℕ, [], ◌++◌, IfOk, List, false};
    ghost use Rattle.command_text.specs.Putting.{PutsOut};
    ghost use Rattle.service_text.specs.Telling.{HasTakenStream, IsStreamText, is_wanting};

    /// What took no packet yet.
    pub fn make(alloc: Global) -> Result<PidTeller, NoMemory>
        ensures { IfOk result (λ teller. HasTakenStream teller [] []) }
    {
        Ok(PidTeller {
            pids: Pids::make(alloc)?,
            programmes: Programmes::make(alloc)?,
            services: ServiceList::make(alloc)?,
        })
    }

    /// Whether no memory was found for a PID or a programme.
    pub fn is_wanting(&self) -> bool
        ensures { result ≡ is_wanting self.now }
    {
        self.pids.is_wanting() || self.programmes.is_wanting()
    }

    /// Puts out the text of the packets so far, where no memory was wanting.
    pub fn put_text<K: Sink>(&mut self, out: &mut K, buffer: &mut TextBuffer)
        requires { is_wanting self.old ≡ false }
        ensures { (packets : List (List ℕ)) (text : List ℕ) → HasTakenStream self.old packets text
            → (more : List ℕ) × IsStreamText packets (text ++ more) × PutsOut
            (K.received out.old)
            (K.received out.new)
            buffer.old buffer.new more }
    {
        self.pids.put_text(out, buffer);
        list_programmes(&mut self.services, self.programmes.programmes());
        put_services(out, buffer, &self.services);
    }
}

impl PacketTeller for PidTeller {
    ghost use Rattle.pid_text.specs.PidText.{NO_PID};
    ghost use Rattle.service_text.specs.Telling.{HasTakenStream};

    // A packet is refused for its sync byte alone.
    ghost pid = { λ _. NO_PID };

    ghost stands = { HasTakenStream };

    ghost kept = { λ _. tt };

    fn take_packet<K: Sink>(
        &mut self,
        out: &mut K,
        buffer: &mut TextBuffer,
        place: u64,
        packet: &[u8; 188],
    ) -> Result<(), PacketFault> {
        self.pids.take_packet(out, buffer, place, packet)?;
        let _came = self.programmes.feed(packet);
        Ok(())
    }
}
