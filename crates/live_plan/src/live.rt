ghost use Rattle.std.specs.Prelude.{◌≡◌, ◌<◌, ◌≤◌, [], true, false, None, List, IfOk, OnOk};
ghost use Rattle.csv.specs.Records.{fields_of};
ghost use Rattle.cue_list.specs.TickRows.{is_tick_row as is_tick_row_of};
ghost use Rattle.live_plan.specs.LiveCalls.{AnswersPiece, HasLetIn, WritesDueOf, WritesRestOf};
ghost use Rattle.live_plan.specs.LiveRows.{RowOrTick, has_epoch as has_epoch_in, records_in};
ghost use Rattle.live_plan.specs.Private.Accepting.{AnswersRow};
ghost use Rattle.shown_stream.specs.Compiled.{IsCompiledFor};

use crate::accepted::Accepted;
use crate::faults::RowFault;
use crate::outlet::{Outlet, slots_by};
use crate::planning::Target;
use bitmap_font::Font;
use csv::ByteRecord;
use cue_list::{OnlyRow, ScriptReader, is_tick_row, only_row};
use set_coder::KeptBlocks;
use std::alloc::Global;
use std::marker::Model;
use sub_base::{NoMemory, ProfileName, Sink, WriteFailed};

/// A script whose records come one by one, and the packets of those that were accepted, as far as
/// they are not written yet.
#[derive(Drop)]
pub struct Live {
    accepted: Accepted,
    /// The last tick.
    last: Option<u64>,
    outlet: Outlet,
}

impl Model for Live {
    ghost use Rattle.std.specs.Coded.{codes};
    ghost use Rattle.cue_list.specs.contracts.kept_rows.ScriptReader as reader_row;
    ghost use Rattle.live_plan.specs.LiveCalls.{LiveState};

    ghost Value = { LiveState };

    ghost coded = { Prim.hlevel (codes, reader_row.the_row.coded) };

    ghost use Rattle.live_plan.specs.Private.Accepting.{IsLive, live_of};

    ghost view = { λ l. live_of l.accepted l.last l.outlet };

    ghost invariant = { λ l. IsLive (live_of l.accepted l.last l.outlet) };
}

impl Live {
    /// Of no records, for receivers of a profile that has a step, on a PID and a page. After want
    /// of memory the font is given up.
    pub fn make(
        alloc: Global,
        profile: ProfileName,
        pid: u16,
        page: u16,
        font: Font,
    ) -> Result<Live, NoMemory>
        requires profile { IsCompiledFor profile }
        requires pid { pid < 8192 }
        ensures inserter { IfOk result (λ live. live.inserter
            ≡ record { profile = profile; pid = pid; page = page; font = font }) }
        ensures nothing { IfOk result (λ live. HasLetIn live []) }
        ensures unsent { IfOk result (λ live. live.outlet.sent ≡ 0) }
        ensures open { IfOk result (λ live. live.outlet.closed ≡ false) }
    {
        let outlet = Outlet::make(alloc)?;
        let accepted = Accepted {
            alloc,
            target: Target { profile, pid, page },
            font,
            reader: ScriptReader::new(alloc),
            blocks: KeptBlocks::none(alloc),
        };
        Ok(Live {
            accepted,
            last: None,
            outlet,
        })
    }

    /// Takes a piece of the script that has one record: a record of the script, or `tick` and a
    /// tick of 90 kHz. A record is refused where a test of its fails behind those that were
    /// accepted, where packets that are due could depend on it, or where the script with it cannot
    /// be sent; then, and after want of memory, the value is as before.
    pub fn row(&mut self, piece: &[u8]) -> Result<(), RowFault>
        ensures answer { AnswersPiece self.old self.new piece.now result }
        ensures inserter { self.new.inserter ≡ self.old.inserter }
        ensures sent { self.new.outlet.sent ≡ self.old.outlet.sent }
        ensures closed { self.new.outlet.closed ≡ self.old.outlet.closed }
    {
        let only = match only_row(self.accepted.alloc, piece) {
            Ok(only) => only,
            Err(NoMemory) => return Err(RowFault::Memory),
        };
        match only {
            OnlyRow::Row(row) => self.take_row(&row),
            OnlyRow::Many { count } => Err(RowFault::Records { count }),
        }
    }

    /// Takes the one row of a piece.
    fn take_row(&mut self, row: &ByteRecord) -> Result<(), RowFault>
        ensures answer { AnswersRow self.old self.new (fields_of row.now) result }
        ensures inserter { self.new.inserter ≡ self.old.inserter }
        ensures sent { self.new.outlet.sent ≡ self.old.outlet.sent }
        ensures closed { self.new.outlet.closed ≡ self.old.outlet.closed }
    {
        if is_tick_row(row) {
            self.take_tick(row)
        } else {
            self.take_record(row)
        }
    }

    /// Takes a tick: what is due grows.
    fn take_tick(&mut self, row: &ByteRecord) -> Result<(), RowFault>
        requires is_tick { is_tick_row_of (fields_of row.now) ≡ true }
        ensures answer { AnswersRow self.old self.new (fields_of row.now) result }
        ensures inserter { self.new.inserter ≡ self.old.inserter }
        ensures sent { self.new.outlet.sent ≡ self.old.outlet.sent }
        ensures closed { self.new.outlet.closed ≡ self.old.outlet.closed }
    {
        let tick = match self.accepted.reader.tick(row, self.last) {
            Ok(tick) => tick,
            Err(kind) => return Err(RowFault::Script(kind)),
        };
        let origin = self.accepted.reader.origin();
        let due = slots_by(origin, self.accepted.target.step(), tick);
        self.outlet.set_due(due);
        self.last = Some(tick);
        Ok(())
    }

    /// Takes a record of the script: there are more packets.
    fn take_record(&mut self, row: &ByteRecord) -> Result<(), RowFault>
        requires plain { is_tick_row_of (fields_of row.now) ≡ false }
        ensures answer { AnswersRow self.old self.new (fields_of row.now) result }
        ensures inserter { self.new.inserter ≡ self.old.inserter }
        ensures sent { self.new.outlet.sent ≡ self.old.outlet.sent }
        ensures closed { self.new.outlet.closed ≡ self.old.outlet.closed }
    {
        let sent = self.outlet.sent();
        let left = match self.accepted.take_next(row, self.last, sent) {
            Ok(left) => left,
            Err(fault) => return Err(fault),
        };
        self.outlet.take_left(left);
        Ok(())
    }

    /// Whether an epoch's record was accepted.
    pub fn has_epoch(&self) -> bool
        ensures { (past : List RowOrTick) → HasLetIn self.now past
            → result ≡ has_epoch_in (records_in past) }
    {
        self.accepted.reader.has_epoch()
    }

    /// Writes the packets that are due by the last tick that was accepted and are not written yet:
    /// those of the slots up to it, of the records before it. Takes no memory.
    pub fn write_due<K: Sink>(&mut self, out: &mut K) -> Result<(), WriteFailed>
        requires open { self.old.outlet.closed ≡ false }
        ensures writes { WritesDueOf self.old self.new
            (K.received out.old) (K.received out.new) result }
        ensures kept { (K.received out.old).faults ≤ (K.received out.new).faults }
        ensures inserter { self.new.inserter ≡ self.old.inserter }
        ensures open { OnOk result (self.new.outlet.closed ≡ false) }
    {
        self.outlet.write_due(out)
    }

    /// Writes all packets of the accepted records that are not written yet: the last call. Takes
    /// no memory.
    pub fn finish<K: Sink>(&mut self, out: &mut K) -> Result<(), WriteFailed>
        requires open { self.old.outlet.closed ≡ false }
        ensures writes { WritesRestOf self.old (K.received out.old) (K.received out.new) result }
        ensures kept { (K.received out.old).faults ≤ (K.received out.new).faults }
        ensures closed { self.new.outlet.closed ≡ true }
    {
        self.outlet.finish(out)
    }
}
