ghost use Rattle.std.specs.Prelude.{◌≡◌, ◌<◌, ◌≤◌, ◌^◌, [], true, false, min, IfOk, IfSome, OnErr, OnOk};
ghost use Rattle.live_plan.specs.LiveRows.{slots_by as slots_by_of};
ghost use Rattle.live_plan.specs.Outlets.{Finishes, WritesDue};
ghost use Rattle.live_plan.specs.Private.Loading.{HasRoomFor, loaded};
ghost use Rattle.slot_stream.specs.KeptPackets.{HaveRisingSlots};

use command_text::TextBuffer;
use script_stream::PacketsLeft;
use slot_stream::KeptPackets;
use std::alloc::Global;
use std::marker::Model;
use sub_base::{NoMemory, Sink, WriteFailed};

/// The packets of a batch that are not written yet, and how many slots of the batch are due. Null
/// packets are made as they are written.
#[derive(Drop)]
pub struct Outlet {
    kept: KeptPackets,
    /// Made once: writing takes no memory.
    buffer: TextBuffer,
    /// How many slots were written.
    sent: u64,
    /// How many are due.
    due: u64,
    /// How many the batch has.
    count: u64,
    /// Whether a write failed, or all was written.
    closed: bool,
}

impl Model for Outlet {
    ghost use Rattle.std.specs.Prelude.{◌≡◌, ◌≤◌, [], false};
    ghost use Rattle.live_plan.specs.Outlets.{OutletState};
    ghost use Rattle.slot_stream.specs.KeptPackets.{HaveRisingSlots};

    ghost Value = { OutletState };

    ghost view = { λ o. record {
      kept = o.kept;
      sent = o.sent;
      due = o.due;
      count = o.count;
      closed = o.closed;
    } };

    ghost invariant = { λ o. (o.sent ≤ o.due) × (o.due ≤ o.count) × HaveRisingSlots o.kept
        × (o.closed ≡ false → o.buffer ≡ record { waits = []; failed = false }) };
}

impl Outlet {
    /// Of no packets.
    pub fn make(alloc: Global) -> Result<Outlet, NoMemory>
        ensures { IfOk result (λ outlet. outlet ≡ record {
          kept = record { slots = []; packets = [] };
          sent = 0;
          due = 0;
          count = 0;
          closed = false;
        }) }
    {
        Ok(Outlet {
            kept: KeptPackets::make(alloc),
            buffer: TextBuffer::make(alloc)?,
            sent: 0,
            due: 0,
            count: 0,
            closed: false,
        })
    }

    /// How many slots were written.
    pub fn sent(&self) -> u64
        ensures { result ≡ self.now.sent }
    {
        self.sent
    }

    /// Takes the packets of a batch with so many slots, in place of those before.
    pub fn load(&mut self, kept: KeptPackets, count: u64)
        requires enough { self.old.due ≤ count }
        requires kept { HaveRisingSlots kept }
        ensures { self.new ≡ record self.old { kept = kept; count = count } }
    {
        self.kept = kept;
        self.count = count;
    }

    /// Takes what is left of a batch in place of the packets before, where there is a batch.
    pub(crate) fn take_left(&mut self, left: Option<PacketsLeft>)
        requires room { IfSome left (HasRoomFor self.old) }
        ensures { self.new ≡ loaded self.old left }
    {
        if let Some(left) = left {
            self.load(left.kept, left.count);
        }
    }

    /// So many slots are due, as far as the batch has them.
    pub fn set_due(&mut self, slots: u64)
        requires later { self.old.due ≤ slots }
        ensures { self.new ≡ record self.old { due = min slots self.old.count } }
    {
        self.due = slots.min(self.count);
    }

    /// Writes what is due and not written yet. Takes no memory. After a failure nothing but that is
    /// changed.
    pub fn write_due<K: Sink>(&mut self, out: &mut K) -> Result<(), WriteFailed>
        requires good { self.old.closed ≡ false }
        ensures writes { WritesDue self.old self.new (K.received out.old) (K.received out.new)
            result }
        ensures kept { (K.received out.old).faults ≤ (K.received out.new).faults }
        ensures good { OnOk result (self.new.closed ≡ false) }
        ensures failed { OnErr result (self.new ≡ record self.old { closed = true }) }
    {
        match self.kept.write(out, &mut self.buffer, self.sent, self.due) {
            Ok(()) => {
                self.sent = self.due;
                Ok(())
            }
            Err(WriteFailed) => {
                self.closed = true;
                Err(WriteFailed)
            }
        }
    }

    /// Writes all packets that are not written yet: the last call. Takes no memory.
    pub fn finish<K: Sink>(&mut self, out: &mut K) -> Result<(), WriteFailed>
        requires good { self.old.closed ≡ false }
        ensures writes { Finishes self.old (K.received out.old) (K.received out.new) result }
        ensures kept { (K.received out.old).faults ≤ (K.received out.new).faults }
        ensures closed { self.new ≡ record self.old { closed = true } }
    {
        let written = self
            .kept
            .write(out, &mut self.buffer, self.sent, self.count);
        self.closed = true;
        written
    }
}

/// How many slots have a tick of at most that: slots begin at the origin, one each step.
pub fn slots_by(origin: u64, step: u64, tick: u64) -> u64
    requires step { 1 ≤ step }
    requires small { tick < 2 ^ 63 }
    ensures { result ≡ slots_by_of origin step tick }
{
    if tick < origin {
        0
    } else {
        (tick - origin) / step + 1
    }
}
