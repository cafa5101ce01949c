ghost use Rattle.std.specs.Prelude.{◌≡◌, ◌∷◌, List, IfErr, IfOk, OnErr, OnOk};
ghost use Rattle.csv.specs.Records.{fields_of};
ghost use Rattle.cue_list.specs.SeenReaders.{seen_of};
ghost use Rattle.live_plan.specs.LiveCalls.{HasBlocks};
ghost use Rattle.live_plan.specs.LiveRows.{RowOrTick, row as row_taken};
ghost use Rattle.live_plan.specs.Private.Accepting.{AreAccepted, CanSend, HasAccepted, HasLeft, HasLeftLate, IsNextRefused, IsNextTaken, IsSmallTick, IsUnsent, IsUnsentOrEarly, horizon_over, inserter_in, record_refusal};
ghost use Rattle.live_plan.specs.Private.Planning.{KeepsBlocks};

use crate::faults::RowFault;
use crate::limits::AHEAD;
use crate::planning::Target;
use bitmap_font::Font;
use csv::ByteRecord;
use cue_list::{RecordFault, ScriptReader};
use script_stream::PacketsLeft;
use set_coder::KeptBlocks;
use std::alloc::Global;
use sub_base::NoMemory;

/// The records that were accepted, and the blocks of their pictures.
#[derive(Drop)]
pub(crate) struct Accepted {
    pub(crate) alloc: Global,
    pub(crate) target: Target,
    pub(crate) font: Font,
    pub(crate) reader: ScriptReader,
    /// Each picture is coded once: as soon as there is an epoch.
    pub(crate) blocks: KeptBlocks,
}

impl Accepted {
    /// Takes the record that comes next, and answers what is left of the packets with it, behind so
    /// many slots; nothing where no epoch was started. Or says why it is refused, and stands for
    /// the records before it still.
    pub(crate) fn take_next(
        &mut self,
        row: &ByteRecord,
        last: Option<u64>,
        sent: u64,
    ) -> Result<Option<PacketsLeft>, RowFault>
        requires sends { CanSend (inserter_in self.old) }
        requires small { IsSmallTick last }
        requires stands { HasAccepted self.old }
        ensures taken { IfOk result (λ left. (past : List RowOrTick) → AreAccepted self.old past
            → IsNextTaken (inserter_in self.old) past (fields_of row.now) last sent left
            × AreAccepted self.new (row_taken (fields_of row.now) ∷ past)) }
        ensures refused { IfErr result (λ fault. (past : List RowOrTick) → AreAccepted self.old past
            → IsNextRefused (inserter_in self.old) past (fields_of row.now) last fault
            × AreAccepted self.new past) }
        ensures inserter { inserter_in self.new ≡ inserter_in self.old }
    {
        let first = self.reader.first_tick(row);
        let before = match self.reader.take(self.alloc, &self.font, row) {
            Ok(before) => before,
            Err(fault) => return Err(refusal(fault)),
        };
        match self.left_late(first, last, sent) {
            Ok(left) => Ok(left),
            Err(fault) => {
                self.reader.go_back(before);
                Err(fault)
            }
        }
    }

    /// What is left of the packets behind so many slots, where the last record's first tick lies
    /// above the horizon.
    fn left_late(
        &mut self,
        first: Option<u64>,
        last: Option<u64>,
        sent: u64,
    ) -> Result<Option<PacketsLeft>, RowFault>
        requires sends { CanSend (inserter_in self.old) }
        requires small { IsSmallTick last }
        requires stands { HasAccepted self.old }
        ensures left { IfOk result (λ left. (past : List RowOrTick) → AreAccepted self.old past
            → HasLeftLate (inserter_in self.old) past sent first last left) }
        ensures refused { IfErr result (λ fault. (past : List RowOrTick) → AreAccepted self.old past
            → IsUnsentOrEarly (inserter_in self.old) past first last fault) }
        ensures seen { seen_of self.new.reader ≡ seen_of self.old.reader }
        ensures blocks { OnOk result
            (HasBlocks (seen_of self.old.reader).pictures self.new.blocks) }
        ensures back { OnErr result
            (KeepsBlocks (seen_of self.old.reader).pictures self.old.blocks self.new.blocks) }
        ensures inserter { inserter_in self.new ≡ inserter_in self.old }
    {
        match horizon(first, last) {
            Some(horizon) => Err(RowFault::Early { horizon }),
            None => self.left(sent),
        }
    }

    /// What is left of the packets of the records behind so many slots; nothing where no epoch was
    /// started.
    fn left(&mut self, sent: u64) -> Result<Option<PacketsLeft>, RowFault>
        requires sends { CanSend (inserter_in self.old) }
        requires stands { HasAccepted self.old }
        ensures left { IfOk result (λ left. (past : List RowOrTick) → AreAccepted self.old past
            → HasLeft (inserter_in self.old) past sent left) }
        ensures refused { IfErr result (λ fault. (past : List RowOrTick) → AreAccepted self.old past
            → IsUnsent (inserter_in self.old) past fault) }
        ensures seen { seen_of self.new.reader ≡ seen_of self.old.reader }
        ensures blocks { OnOk result
            (HasBlocks (seen_of self.old.reader).pictures self.new.blocks) }
        ensures back { OnErr result
            (KeepsBlocks (seen_of self.old.reader).pictures self.old.blocks self.new.blocks) }
        ensures inserter { inserter_in self.new ≡ inserter_in self.old }
    {
        if !self.reader.has_epoch() {
            return Ok(None);
        }
        let lent = match self.reader.lend(self.alloc) {
            Ok(lent) => lent,
            Err(NoMemory) => return Err(RowFault::Memory),
        };
        let left = self
            .target
            .packets_behind(self.alloc, &mut self.blocks, lent.script(), sent);
        self.reader = lent.give_back();
        match left {
            Ok(left) => Ok(Some(left)),
            Err(fault) => Err(fault),
        }
    }
}

/// The horizon behind the last tick, where the first tick of a record does not lie above it.
fn horizon(first: Option<u64>, last: Option<u64>) -> Option<u64>
    requires small { IsSmallTick last }
    ensures { result ≡ horizon_over first last }
{
    let horizon = last? + AHEAD;
    if first? <= horizon {
        Some(horizon)
    } else {
        None
    }
}

/// A record that is not taken, as the fault of a row.
fn refusal(fault: RecordFault) -> RowFault
    ensures { result ≡ record_refusal fault }
{
    match fault {
        RecordFault::Memory => RowFault::Memory,
        RecordFault::Wrong(kind) => RowFault::Script(kind),
    }
}
