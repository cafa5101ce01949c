ghost use Rattle.std.specs.Prelude.{◌≡◌, ◌<◌, IfErr, IfOk, OnOk};
ghost use Rattle.std.specs.Io.KnownBytes.{Appends, Keeps};
ghost use Rattle.shown_stream.specs.Compiled.{IsCompiledFor, compiling_for};
ghost use Rattle.stream_syntax.specs.declared.wire.TheConstants.{NULL_PID};
ghost use Rattle.sub_base.specs.Counts.{HasRisen};
ghost use Rattle.sub_base.specs.Endpoints.{AppendsPrefix};
ghost use Rattle.script_stream.specs.Refused.{IsSendCause};
ghost use Rattle.script_stream.specs.SentScripts.{IsSentFor, stream_bytes};
ghost use Rattle.script_stream.specs.ShownRightly.{IsShownRightly};

use crate::faults::SendFault;
use crate::timed::{Timed, plan_of};
use crate::units::{SetUnits, pieces_of, units_of};
use cue_list::Script;
use page_epoch::{Plan, PlannedSet};
use schedule::Schedule;
use set_coder::KeptBlocks;
use slot_stream::{StreamFault, write_stream};
use std::alloc::Global;
use std::marker::Model;
use sub_base::{ProfileName, Sink, WriteLoad};

/// All that is sent of a script: the display sets of its plan, their PES packets, and the slots of
/// their transport packets.
#[derive(Drop)]
pub struct ScriptStream {
    pid: u16,
    plan: Plan,
    loads: Vec<WriteLoad>,
    /// The PES packets of each set, one after the other.
    written: Vec<SetUnits>,
    schedule: Schedule,
}

impl Model for ScriptStream {
    ghost use Rattle.script_stream.specs.SentScripts.{SentScript, units_in};
    ghost use Rattle.script_stream.specs.Private.Sending.{IsWritable};

    ghost Value = { SentScript };

    ghost view = { λ s. record {
      pid = s.pid;
      sets = s.plan.sets;
      loads = s.loads.items;
      units = units_in s.loads.items s.written.items;
      table = s.schedule;
    } };

    ghost invariant = { λ s. IsWritable s.pid s.loads.items s.written.items s.schedule };
}

impl ScriptStream {
    /// The stream of a script for receivers of a profile, on a PID and a page: the sets of its plan
    /// in the earliest slots from the script's origin on. Or the first set that plan or schedule
    /// refuses, by the record that brings it.
    pub fn make(
        alloc: Global,
        profile: ProfileName,
        pid: u16,
        page: u16,
        script: &Script,
    ) -> Result<ScriptStream, SendFault>
        requires pid { pid < NULL_PID }
        requires profile { IsCompiledFor profile }
        ensures sent { IfOk result (IsSentFor (compiling_for profile pid page script.now)) }

        // A receiver that enters the packets anywhere shows the script from its entry set on; one
        // that loses packets shows it at every good tick; page memory holds the script; the coded
        // data buffer holds what comes, and every set is decoded by its time.
        ensures shown { IfOk result (λ sent. IsShownRightly
            (compiling_for profile pid page script.now)
            sent.sets sent.loads sent.table (stream_bytes sent)) }
        ensures cause { IfErr result (IsSendCause profile script.now) }
    {
        let plan = plan_of(alloc, profile, script)?;
        // Coded once for all sets that show them: refreshes send each picture several times.
        let Ok(blocks) = KeptBlocks::of_script(alloc, script) else {
            return Err(SendFault::Memory);
        };
        let Timed {
            plan,
            loads,
            schedule,
        } = Timed::of_plan(alloc, profile, script, &blocks, plan)?;
        let Ok(written) = units_of(alloc, script, &blocks, plan.sets.as_slice(), page) else {
            return Err(SendFault::Memory);
        };
        Ok(ScriptStream {
            pid,
            plan,
            loads,
            written,
            schedule,
        })
    }

    /// The display sets, in order of their presentation times.
    pub fn sets(&self) -> &[PlannedSet]
        ensures { result.now ≡ self.now.sets }
    {
        self.plan.sets.as_slice()
    }

    /// The slots of the packets of each set.
    pub fn schedule(&self) -> &Schedule
        ensures { result.now ≡ self.now.table }
    {
        &self.schedule
    }

    /// Writes the packets of all slots up to the last used one. All memory is taken before the
    /// first byte is written.
    pub fn write<K: Sink>(&self, alloc: Global, out: &mut K) -> Result<(), StreamFault>
        ensures all { OnOk result (Appends (K.received out.old).written (K.received out.new).written
            (stream_bytes self.now)) }
        ensures front { IfErr result (λ fault. fault ≡ StreamFault.Write
            → AppendsPrefix (K.received out.old).written (K.received out.new).written
            (stream_bytes self.now)) }
        ensures nothing { IfErr result (λ fault. fault ≡ StreamFault.Memory
            → Keeps (K.received out.old).written (K.received out.new).written) }
        ensures cause { IfErr result (λ fault. fault ≡ StreamFault.Write
            → HasRisen (K.received out.old).faults (K.received out.new).faults) }
    {
        let Ok(pieces) = pieces_of(alloc, self.loads.as_slice(), self.written.as_slice()) else {
            return Err(StreamFault::Memory);
        };
        write_stream(
            alloc,
            out,
            self.pid,
            pieces.as_slice(),
            self.schedule.all_slots(),
        )
    }
}
