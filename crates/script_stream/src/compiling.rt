ghost use Rattle.std.specs.Prelude.{◌<◌, IfErr, IfOk};
ghost use Rattle.std.specs.Io.KnownBytes.{Appends};
ghost use Rattle.shown_stream.specs.Compiled.{IsCompiledFor, compiling_for};
ghost use Rattle.stream_syntax.specs.declared.wire.TheConstants.{NULL_PID};
ghost use Rattle.script_stream.specs.Refused.{IsCompileEnd};
ghost use Rattle.script_stream.specs.SentScripts.{IsSentFor, stream_bytes};
ghost use Rattle.script_stream.specs.ShownRightly.{IsShownRightly};

use crate::faults::{CompileFault, SendFault};
use crate::stream::ScriptStream;
use cue_list::Script;
use slot_stream::StreamFault;
use std::alloc::Global;
use sub_base::{ProfileName, Sink};

/// Compiles a script for receivers of a profile, on a PID and a page: writes its packets, and
/// answers what was written. Nothing is written before all memory is taken and every refusal of the
/// script is found.
pub fn compile_script<K: Sink>(
    alloc: Global,
    profile: ProfileName,
    pid: u16,
    page: u16,
    script: &Script,
    out: &mut K,
) -> Result<ScriptStream, CompileFault>
    requires pid { pid < NULL_PID }
    requires profile { IsCompiledFor profile }
    ensures sent { IfOk result (IsSentFor (compiling_for profile pid page script.now)) }
    ensures written { IfOk result (λ sent. Appends
        (K.received out.old).written (K.received out.new).written (stream_bytes sent)) }

    // What receivers show of these same packets of this same script, wherever they enter them and
    // whatever they lose.
    ensures shown { IfOk result (λ sent. IsShownRightly
        (compiling_for profile pid page script.now)
        sent.sets sent.loads sent.table (stream_bytes sent)) }
    ensures cause { IfErr result (IsCompileEnd (compiling_for profile pid page script.now)
        (K.received out.old) (K.received out.new)) }
{
    let stream = match ScriptStream::make(alloc, profile, pid, page, script) {
        Ok(stream) => stream,
        Err(fault) => return Err(CompileFault::Send(fault)),
    };
    match stream.write(alloc, out) {
        Ok(()) => Ok(stream),
        Err(StreamFault::Memory) => Err(CompileFault::Send(SendFault::Memory)),
        Err(StreamFault::Write) => Err(CompileFault::Write),
    }
}
