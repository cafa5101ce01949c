//! A run of the live inserter: the pieces of a script go in one after the other, and what is due is
//! written behind each of them.

ghost use Rattle.std.specs.Prelude.{◌≡◌, ◌+◌, ◌<◌, ◌≤◌, ◌^◌, List, ℕ, false, OnOk};
ghost use Rattle.live_plan.specs.LiveOutcome.{is_memory as is_memory_of};
ghost use Rattle.live_plan.specs.Private.Running.{Begun, HasTaken, IsFinished, IsPaid, IsPieceEnd, IsPutIn, IsWrittenOut, is_without_record as is_without_record_of};
ghost use Rattle.sub_base.specs.Endpoints.{Received};

use crate::faults::RowFault;
use crate::live::Live;
use crate::told::tell_refused;
use sub_base::{NoMemory, Sink, WriteFailed};

/// Why a run stopped, or has nothing to send.
#[derive(Clone, Copy)]
pub(crate) enum Stop {
    /// No memory was found.
    Memory,
    /// The output could not be written.
    Out,
    /// The line of a refused row could not be written.
    Notes,
    /// The script could not be read.
    Unread,
    /// The script has more bytes than a script may have.
    TooLong,
    /// The script ended, and no epoch's record was accepted.
    NoEpoch,
}

impl From<NoMemory> for Stop {
    ghost use Rattle.std.specs.Prelude.{◌≡◌};
    ghost use Rattle.live_plan.specs.declared.run.Stop.TheVariants.{Memory};

    ghost from_gives = { λ _ stop. stop ≡ Memory };

    fn from(_error: NoMemory) -> Stop {
        Stop::Memory
    }
}

/// An inserter, and what went into it.
#[derive(Drop)]
pub(crate) struct Run {
    /// What was let in, and its packets.
    pub live: Live,
    /// How many pieces with records went in.
    pub count: u64,
}

impl Run {
    /// Puts a piece in, and writes what is due with it.
    pub(crate) fn take_piece<K: Sink, N: Sink>(
        &mut self,
        piece: &[u8],
        out: &mut K,
        notes: &mut N,
    ) -> Result<(), Stop>
        requires open { self.old.live.outlet.closed ≡ false }
        requires few { self.old.count < 2 ^ 63 }
        ensures taken { (begun : Begun) (earlier further : List (List ℕ))
            → IsPaid begun earlier further (K.received out.old) (N.received notes.old) self.old
            → IsPieceEnd begun earlier further piece.now
            (K.received out.new) (N.received notes.new) self.new result }
        ensures open { OnOk result (self.new.live.outlet.closed ≡ false) }
        ensures counted { self.new.count ≤ self.old.count + 1 }
    {
        self.put_in(piece, notes)?;
        self.write_due(out)
    }

    /// Puts a piece in. Where its row is refused, that is told at once.
    fn put_in<N: Sink>(&mut self, piece: &[u8], notes: &mut N) -> Result<(), Stop>
        requires few { self.old.count < 2 ^ 63 }
        ensures put { (begun : Begun) (earlier further : List (List ℕ)) (out : Received)
            → IsPaid begun earlier further out (N.received notes.old) self.old
            → IsPutIn begun earlier further piece.now out (N.received notes.new) self.new result }
        ensures closed { self.new.live.outlet.closed ≡ self.old.live.outlet.closed }
        ensures counted { self.new.count ≤ self.old.count + 1 }
    {
        let fault = match self.live.row(piece) {
            Ok(()) => {
                self.count += 1;
                return Ok(());
            }
            Err(fault) => fault,
        };
        if is_memory(fault) {
            return Err(Stop::Memory);
        }
        // A blank line is no row.
        if is_without_record(fault) {
            return Ok(());
        }
        self.count += 1;
        match tell_refused(self.count, fault, notes) {
            Ok(()) => Ok(()),
            Err(WriteFailed) => Err(Stop::Notes),
        }
    }

    /// Writes what is due and not written yet.
    fn write_due<K: Sink>(&mut self, out: &mut K) -> Result<(), Stop>
        requires open { self.old.live.outlet.closed ≡ false }
        ensures written { (begun : Begun) (earlier further : List (List ℕ)) (notes : Received)
            → HasTaken begun earlier further (K.received out.old) notes self.old
            → IsWrittenOut begun earlier further (K.received out.new) notes self.new result }
        ensures open { OnOk result (self.new.live.outlet.closed ≡ false) }
        ensures count { self.new.count ≡ self.old.count }
    {
        match self.live.write_due(out) {
            Ok(()) => Ok(()),
            Err(WriteFailed) => Err(Stop::Out),
        }
    }

    /// Writes the rest of the packets, where an epoch's record was let in: the last call.
    pub(crate) fn finish<K: Sink>(&mut self, out: &mut K) -> Result<(), Stop>
        requires open { self.old.live.outlet.closed ≡ false }
        ensures { (begun : Begun) (earlier further : List (List ℕ)) (notes : Received)
            → IsPaid begun earlier further (K.received out.old) notes self.old
            → IsFinished begun earlier further (K.received out.new) notes result }
    {
        let has_epoch = self.live.has_epoch();
        if !has_epoch {
            return Err(Stop::NoEpoch);
        }
        match self.live.finish(out) {
            Ok(()) => Ok(()),
            Err(WriteFailed) => Err(Stop::Out),
        }
    }
}

/// Whether memory was wanting, which is no refusal.
fn is_memory(fault: RowFault) -> bool
    ensures { result ≡ is_memory_of fault }
{
    match fault {
        RowFault::Memory => true,
        RowFault::Records { .. }
        | RowFault::Script(_)
        | RowFault::Early { .. }
        | RowFault::Plan(_)
        | RowFault::Schedule(_) => false,
    }
}

/// Whether the piece has no record, and is no row.
fn is_without_record(fault: RowFault) -> bool
    ensures { result ≡ is_without_record_of fault }
{
    match fault {
        RowFault::Records { count } => count == 0,
        RowFault::Memory
        | RowFault::Script(_)
        | RowFault::Early { .. }
        | RowFault::Plan(_)
        | RowFault::Schedule(_) => false,
    }
}
