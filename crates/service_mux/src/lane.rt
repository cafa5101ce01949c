ghost use Rattle.std.specs.Prelude.{◌≡◌, ◌+◌, ◌<◌, ◌≤◌, ℕ, [], List, length, IfOk, IfErr, slice_get, Some, true, false};
ghost use Rattle.sub_base.specs.Endpoints.{Supplied};
ghost use Rattle.packet_source.specs.InHand.{read_count, whole_packets};
ghost use Rattle.service_mux.specs.Private.Lanes.{HasPassed, IsLaneStop, IsSound, Keeps, Passes, Reaches, lacks_sync as lacks_sync_in, reached};

use packet_source::{PacketSource, StreamEnd};
use std::alloc::Global;
use stream_syntax::SYNC_BYTE;
use sub_base::{NoMemory, Source};

/// Why a stream gives no packet more before its end.
#[derive(Clone, Copy, Debug, PartialEq, Eq, Drop)]
pub(crate) enum LaneStop {
    /// The source could not be read.
    Unread,
    /// The stream has more bytes than its limit.
    TooLong,
}

/// The packets of one stream, one after the other.
#[derive(Drop)]
pub(crate) struct Lane {
    /// The packets in hand.
    pub packets: PacketSource,
    /// How many of them were passed.
    pub next: usize,
    /// Whether the stream has ended.
    pub is_ended: bool,
}

impl Lane {
    /// The packets of a stream of which nothing was read. All its memory is taken here.
    pub(crate) fn make(alloc: Global) -> Result<Lane, NoMemory>
        ensures nothing { IfOk result (λ lane. (now : Supplied) → HasPassed now now lane []) }
        ensures sound { IfOk result IsSound }
    {
        Ok(Lane {
            packets: PacketSource::make(alloc)?,
            next: 0,
            is_ended: false,
        })
    }

    /// Whether there is a packet more, which is read where none is in hand.
    pub(crate) fn reach<A: Source>(&mut self, source: &mut A) -> Result<bool, LaneStop>
        requires sound { IsSound self.old }
        ensures keeps { Keeps (A.supplied source.old) (A.supplied source.new) self.old self.new }
        ensures sound { IfOk result (λ _. IsSound self.new) }
        ensures reached { IfOk result (λ more. Reaches self.new more) }
        ensures ended { self.old.is_ended ≡ true → self.new.is_ended ≡ true }
        ensures stop { IfErr result (λ stop. (before : Supplied) (packets : List (List ℕ))
            → HasPassed before (A.supplied source.old) self.old packets
            → IsLaneStop before (A.supplied source.old) (A.supplied source.new) stop) }
        ensures kept { (A.supplied source.old).faults ≤ (A.supplied source.new).faults }
    {
        while self.next == self.packets.packets().len() && !self.is_ended {
            if let Err(stop) = self.read_on(source) {
                return Err(stop);
            }
        }
        Ok(!self.is_ended)
    }

    /// The packet that is reached.
    pub(crate) fn packet(&self) -> &[u8; 188]
        requires { Reaches self.now true }
        ensures { slice_get (whole_packets self.now.packets.bytes) self.now.next
            ≡ Some result.now }
    {
        &self.packets.packets()[self.next]
    }

    /// Whether a packet is reached that does not begin with the sync byte.
    pub(crate) fn lacks_sync(&self, more: bool) -> bool
        requires { Reaches self.now more }
        ensures { result ≡ lacks_sync_in (reached self.now more) }
    {
        more && self.packet()[0] != SYNC_BYTE
    }

    /// Passes the packet that is reached.
    pub(crate) fn pass(&mut self)
        requires sound { IsSound self.old }
        requires reached { Reaches self.old true }
        ensures passes { Passes self.old self.new }
        ensures sound { IsSound self.new }
        ensures ended { self.new.is_ended ≡ self.old.is_ended }
    {
        self.next += 1;
    }

    /// Reads on, where all packets in hand were passed.
    fn read_on<A: Source>(&mut self, source: &mut A) -> Result<(), LaneStop>
        requires sound { IsSound self.old }
        requires passed { self.old.next ≡ length (whole_packets self.old.packets.bytes) }
        requires not_ended { self.old.is_ended ≡ false }
        ensures sound { IfOk result (λ _. IsSound self.new) }
        ensures keeps { Keeps (A.supplied source.old) (A.supplied source.new) self.old self.new }
        ensures more { IfOk result (λ _. self.new.is_ended ≡ false
            → read_count self.old.packets < read_count self.new.packets) }
        ensures stop { IfErr result (λ stop. (before : Supplied) (packets : List (List ℕ))
            → HasPassed before (A.supplied source.old) self.old packets
            → IsLaneStop before (A.supplied source.old) (A.supplied source.new) stop) }
        ensures kept { (A.supplied source.old).faults ≤ (A.supplied source.new).faults }
    {
        self.next = 0;
        match self.packets.fill(source) {
            Ok(()) => Ok(()),
            // A rest that is shorter than a packet is passed over.
            Err(StreamEnd::Whole { .. }) => {
                self.is_ended = true;
                Ok(())
            }
            Err(StreamEnd::Unread) => Err(LaneStop::Unread),
            Err(StreamEnd::TooLong) => Err(LaneStop::TooLong),
        }
    }
}
