ghost use Rattle.std.specs.Prelude.{◌≡◌, ◌≤◌, None, length};
ghost use Rattle.stream_syntax.specs.Units.{fate_of};
ghost use Rattle.stream_syntax.specs.declared.wire.TheConstants.{PAYLOAD_LENGTH};
ghost use Rattle.ts_packets.specs.Fates.{IsFate, IsShort, longest_unit};

use crate::kind::{Kind, Payload, is_other, kind_of};
use byteorder::{BigEndian, ByteOrder};
use std::alloc::Global;
use std::marker::Model;
use stream_syntax::{Event, PacketFault};
use sub_base::NoMemory;

/// The bytes before those that a PES packet's length counts.
const LENGTH_END: usize = 6;

/// The most bytes that a PES packet with a length has.
const LONGEST_UNIT: u64 = 65_541;

/// Fewer bytes than a length needs, and a payload.
const ROOM_BEHIND: usize = 189;

/// Collects the units of one PID from transport packets, in memory of a fixed size.
#[derive(Drop)]
pub struct Demux {
    pid: u16,
    size: u64,
    counter: Option<u8>,
    holds: bool,
    bytes: Vec<u8>,
}

impl Model for Demux {
    ghost use Rattle.std.specs.Prelude.{◌≡◌, ◌+◌, ◌≤◌, true, length, min};
    ghost use Rattle.std.specs.Vec.{vec_capacity};
    ghost use Rattle.ts_packets.specs.Demuxing.{Demuxing, room_of};

    ghost Value = { Demuxing };

    ghost view = { λ d. record {
      pid = d.pid;
      size = d.size;
      counter = d.counter;
      holds = d.holds;
      bytes = d.bytes.items;
    } };

    ghost invariant = { λ d. (room_of d.size ≤ vec_capacity d.bytes)
        × (d.holds ≡ true → length d.bytes.items ≤ min d.size 65541 + 5) };
}

/// What became of a packet, and the unit that it ended.
#[derive(Clone, Copy, Debug, PartialEq, Eq)]
pub struct Fed<'a> {
    /// What became of the packet.
    pub event: Event,
    /// The unit that the packet ended, lent until the next packet is fed.
    pub unit: Option<&'a [u8]>,
}

/// What becomes of a unit of which so many bytes are there.
#[derive(Clone, Copy)]
pub(crate) enum Fate {
    /// It waits for more.
    Waits,
    /// It is handed out with so many bytes.
    Whole(usize),
    /// It needs more bytes than are taken.
    Over(u32),
}

/// The event of a packet, and how many bytes of the unit that it ended.
#[derive(Clone, Copy)]
struct Step {
    event: Event,
    unit: Option<usize>,
}

impl Demux {
    ghost use Rattle.std.specs.Prelude.{◌≡◌, ℕ, ◌≤◌, ◌==◌, ◌↔◌, true, false, List, [], ◌++◌, length, IsTrue, MatchResult, IfOk, Some, None};
    ghost use Rattle.std.specs.Option.{option_copied, ForSome};
    ghost use Rattle.std.specs.Borrow.{sem};
    ghost use Rattle.stream_syntax.specs.TransportPackets.{packet_fault, pid_of};
    ghost use Rattle.stream_syntax.specs.Units.{Next, Missing, fate_of, event_at, unit_at, succession};
    ghost use Rattle.ts_packets.specs.Demuxing.{lent_bytes, taken_up, DemuxesOn, HasDemuxed};
    ghost use Rattle.ts_packets.specs.Fates.{IsFate, IsShort, longest_unit};
    ghost use Rattle.ts_packets.specs.Private.Feeding.{IsFed};
    ghost use Rattle.ts_packets.specs.Private.Steps.{Answers, StepsOn};

    /// A demultiplexer that was fed no packet. Units with a length of more than `size` bytes are
    /// dropped.
    pub fn make(alloc: Global, pid: u16, size: u64) -> Result<Demux, NoMemory>
        ensures pid { IfOk result (λ demux. demux.pid ≡ pid) }
        ensures size { IfOk result (λ demux. demux.size ≡ size) }
        ensures stands { IfOk result (λ demux. HasDemuxed demux []) }
    {
        // No PES packet with a length is longer, however many bytes the caller takes.
        let room = size.min(LONGEST_UNIT) as usize + ROOM_BEHIND;
        Ok(Demux {
            pid,
            size,
            counter: None,
            holds: false,
            bytes: Vec::with_capacity(alloc, room)?,
        })
    }

    /// Whether a packet can be taken and is of another PID, as most packets of a stream are. To
    /// feed it would tell of nothing and change nothing, so that a walk need not do it.
    #[inline(always)]
    pub fn is_other(&self, packet: &[u8; 188]) -> bool
        ensures other { IsTrue result ↔ (packet_fault self.now.pid packet.now ≡ None)
            × ((pid_of packet.now == self.now.pid) ≡ false) }
        ensures goes_on { IsTrue result → DemuxesOn self.now self.now packet.now }
        ensures event { IsTrue result → (packets : List (List ℕ))
            → event_at self.now.pid self.now.size packets packet.now ≡ Event.Other }
        ensures unit { IsTrue result → (packets : List (List ℕ))
            → unit_at self.now.pid self.now.size packets packet.now ≡ None }
    {
        is_other(self.pid, packet)
    }

    /// Units with a length of more bytes are dropped.
    pub(crate) fn size(&self) -> u64
        ensures { result ≡ self.now.size }
    {
        self.size
    }

    /// Takes the next packet: what becomes of it, and the unit that it ends, as it stands in the
    /// demultiplexer's own memory. A packet that cannot be taken is not counted among the packets,
    /// and leaves the demultiplexer as it was.
    // What most packets go through is inlined, down to `join`: a packet costs so little that to
    // hand its event over in memory would be a good part of it.
    #[inline(always)]
    pub fn feed(&mut self, packet: &[u8; 188]) -> Result<Fed<'_>, PacketFault>
        ensures* after { sem 𝓛 (IsFed self.entry packet.now result) }

        // The fault is that of the packet's first failing test.
        ensures fault { MatchResult result (λ _. packet_fault self.old.pid packet.now ≡ None)
            (λ fault. packet_fault self.old.pid packet.now ≡ Some fault) }

        // For each list of packets that it stands for, the answer is the event and the unit at this
        // packet behind them.
        ensures event { IfOk result (λ fed. (packets : List (List ℕ)) → HasDemuxed self.old packets
            → fed.event ≡ event_at self.old.pid self.old.size packets packet.now) }
        ensures unit { IfOk result (λ fed. (packets : List (List ℕ)) → HasDemuxed self.old packets
            → option_copied fed.unit ≡ unit_at self.old.pid self.old.size packets packet.now) }

        // A PES packet with a length has at most 65,541 bytes, and one without a length ends with
        // its packet.
        ensures short { IfOk result
            (λ fed. ForSome fed.unit (λ unit. length unit.now ≤ longest_unit)) }
    {
        let step = self.step(packet)?;
        Ok(Fed {
            event: step.event,
            unit: self.first_bytes(step.unit),
        })
    }

    /// The first bytes of the buffer, where there are some to lend.
    fn first_bytes(&self, count: Option<usize>) -> Option<&[u8]>
        requires { ForSome count (λ n. n ≤ length self.now.bytes) }
        ensures lent { option_copied result ≡ lent_bytes self.now.bytes count }
        ensures short { ForSome result
            (λ bytes. (n : ℕ) × (count ≡ Some n) × (length bytes.now ≡ n)) }
    {
        match count {
            Some(count) => Some(&self.bytes[..count]),
            None => None,
        }
    }

    /// Takes one packet, or finds why it cannot be taken.
    #[inline(always)]
    fn step(&mut self, packet: &[u8; 188]) -> Result<Step, PacketFault>
        ensures steps { MatchResult result (λ step. StepsOn self.old self.new step packet.now)
            (λ fault. (self.new ≡ self.old)
            × (packet_fault self.old.pid packet.now ≡ Some fault)) }
        ensures short { IfOk result
            (λ step. ForSome step.unit (λ count. count ≤ longest_unit)) }
    {
        match kind_of(self.pid, packet)? {
            Kind::Other => Ok(Step::alone(Event::Other)),
            Kind::Damaged => Ok(self.break_off(Event::ErrorFlag)),
            Kind::Empty => Ok(Step::alone(Event::NoPayload)),
            Kind::Payload(payload) => Ok(self.take(payload)),
        }
    }

    /// Takes a packet's payload by its counter.
    #[inline(always)]
    fn take(&mut self, payload: Payload<'_>) -> Step
        requires { length payload.bytes.now ≤ PAYLOAD_LENGTH }
        ensures answers { let order = succession self.old.counter payload.entry.counter in
            Answers self.old self.new result order payload.entry.start payload.entry.bytes.now }
        ensures counter { self.new.counter ≡ Some payload.entry.counter }
        ensures short { ForSome result.unit (λ count. count ≤ longest_unit) }
    {
        let last = self.counter;
        self.counter = Some(payload.counter);
        let Some(last) = last else {
            return self.follow(payload);
        };
        // What is kept is below 16. Taken modulo 16 it need not be known to be.
        let expected = (last % 16 + 1) % 16;
        // Each packet may be sent twice (ISO/IEC 13818-1, 2.4.3.3).
        if payload.counter == last {
            Step::alone(Event::Double)
        } else if payload.counter == expected {
            self.follow(payload)
        } else {
            self.resume(expected, payload)
        }
    }

    /// Takes a payload that has the next counter.
    #[inline(always)]
    fn follow(&mut self, payload: Payload<'_>) -> Step
        requires { length payload.bytes.now ≤ PAYLOAD_LENGTH }
        ensures answers { Answers self.old self.new result Next payload.entry.start
            payload.entry.bytes.now }
        ensures counter { self.new.counter ≡ self.old.counter }
        ensures short { ForSome result.unit (λ count. count ≤ longest_unit) }
    {
        // No packet is missing, so the unit in hand was sent with fewer bytes than its length says.
        if payload.start && self.holds {
            let event = Event::Short {
                have: self.bytes.len() as u32,
            };
            self.begin(payload.bytes).answer(self.size, event)
        } else if payload.start {
            self.begin(payload.bytes).answer(self.size, Event::Followed)
        } else if self.holds {
            self.join(payload.bytes).answer(self.size, Event::Followed)
        } else {
            Step::alone(Event::Dropped)
        }
    }

    /// Takes a payload behind missing packets.
    #[inline(never)]
    fn resume(&mut self, expected: u8, payload: Payload<'_>) -> Step
        requires { length payload.bytes.now ≤ PAYLOAD_LENGTH }
        ensures answers { let order = Missing expected payload.entry.counter in
            Answers self.old self.new result order payload.entry.start payload.entry.bytes.now }
        ensures counter { self.new.counter ≡ self.old.counter }
        ensures short { ForSome result.unit (λ count. count ≤ longest_unit) }
    {
        let event = Event::Gap {
            expected,
            found: payload.counter,
        };
        if payload.start {
            self.begin(payload.bytes).answer(self.size, event)
        } else {
            self.break_off(event)
        }
    }

    /// Drops the unit in hand.
    fn break_off(&mut self, event: Event) -> Step
        ensures state { self.new ≡ record self.old { holds = false } }
        ensures answer { result ≡ record { event = event; unit = None } }
    {
        self.holds = false;
        Step::alone(event)
    }

    /// Begins a unit with these bytes.
    #[inline(always)]
    fn begin(&mut self, payload: &[u8]) -> Fate
        requires { length payload.now ≤ PAYLOAD_LENGTH }
        ensures state { self.new ≡ taken_up self.old payload.now }
        ensures fate { IsFate self.old.size payload.now (fate_of self.old.size payload.now) result }
        ensures short { IsShort result }
    {
        self.bytes.clear();
        self.holds = true;
        self.join(payload)
    }

    /// Puts these bytes behind those of the unit in hand.
    #[inline(always)]
    fn join(&mut self, payload: &[u8]) -> Fate
        requires held { self.old.holds ≡ true }
        requires short { length payload.now ≤ PAYLOAD_LENGTH }
        ensures state { self.new ≡ taken_up self.old (self.old.bytes ++ payload.now) }
        ensures fate { let bytes = self.old.bytes ++ payload.now in
            IsFate self.old.size bytes (fate_of self.old.size bytes) result }
        ensures short { IsShort result }
    {
        // The buffer was made with room for the longest unit and one payload more.
        self.bytes.extend_from_slice(payload).unwrap();
        let fate = fate_of_unit(self.size, &self.bytes);
        self.holds = matches!(fate, Fate::Waits);
        fate
    }
}

impl Step {
    /// A packet that ends no unit.
    fn alone(event: Event) -> Step
        ensures { result ≡ record { event = event; unit = None } }
    {
        Step { event, unit: None }
    }
}

impl Fate {
    ghost use Rattle.std.specs.Prelude.{◌≡◌, ◌≤◌};
    ghost use Rattle.std.specs.Option.{ForSome};
    ghost use Rattle.ts_packets.specs.Fates.{IsShort, longest_unit};
    ghost use Rattle.ts_packets.specs.Private.Steps.{answered};

    /// What a packet with this event answers where its unit has this fate.
    #[inline(always)]
    fn answer(self, size: u64, event: Event) -> Step
        ensures answer { result ≡ answered size event self }
        ensures short { IsShort self → ForSome result.unit (λ count. count ≤ longest_unit) }
    {
        match self {
            Fate::Waits => Step::alone(event),
            Fate::Whole(count) => Step {
                event,
                unit: Some(count),
            },
            Fate::Over(need) => Step::alone(match event {
                // A packet has one event: a gap before it, or a short unit, is told in its place.
                Event::Followed => Event::TooLong { need, size },
                _ => event,
            }),
        }
    }
}

/// What becomes of a unit of which these bytes are there.
#[tactic(auto, unfolding(stream_syntax::specs::Units::fate_of))]
#[inline(always)]
pub(crate) fn fate_of_unit(size: u64, bytes: &[u8]) -> Fate
    requires { length bytes.now ≤ longest_unit }
    ensures fate { IsFate size bytes.now (fate_of size bytes.now) result }
    ensures short { IsShort result }
{
    if bytes.len() < LENGTH_END {
        return Fate::Waits;
    }
    let length = BigEndian::read_u16(&bytes[4..LENGTH_END]);
    // No PES packet, or one without a length: it is for the reader of units to say what is wrong
    // with it.
    if bytes[0] != 0 || bytes[1] != 0 || bytes[2] != 1 || length == 0 {
        return Fate::Whole(bytes.len());
    }
    let need = 6 + u32::from(length);
    if u64::from(need) > size {
        Fate::Over(need)
    } else if bytes.len() < need as usize {
        Fate::Waits
    } else {
        Fate::Whole(need as usize)
    }
}
