ghost use Rattle.std.specs.Prelude.{◌≡◌, ◌<◌, false};
ghost use Rattle.shown_stream.specs.Compiled.{IsCompiledFor};
ghost use Rattle.stream_syntax.specs.declared.wire.TheConstants.{NULL_PID};
ghost use Rattle.sub_base.specs.Seen.{seen};
ghost use Rattle.dvbsub_cmd.specs.CompileOutcome.{IsCompileCause};
ghost use Rattle.dvbsub_cmd.specs.Private.CompileStatus.{status_of_fault as status_of};

use crate::read_script::read_script;
use crate::status::Status;
use script_stream::{CompileFault, SendFault, compile_script};
use std::alloc::Global;
use sub_base::{ProfileName, Sink, Source, Which};

/// Compiles a script to packets. Nothing is written before every refusal of it is found.
pub fn compile<A: Source, B: Source, K: Sink>(
    alloc: Global,
    profile: ProfileName,
    pid: u16,
    page: u16,
    has_font: bool,
    first: &mut A,
    second: &mut B,
    out: &mut K,
) -> Status
    requires pid { pid < NULL_PID }
    requires profile { IsCompiledFor profile }
    ensures cause { IsCompileCause profile pid page has_font
        (seen (A.supplied first.old) (B.supplied second.old) (K.received out.old))
        (seen (A.supplied first.new) (B.supplied second.new) (K.received out.new))
        result }
    ensures second { has_font ≡ false → second.new ≡ second.old }
{
    let script = match read_script(alloc, has_font, first, second) {
        Ok(script) => script,
        Err(status) => return status,
    };
    match compile_script(alloc, profile, pid, page, &script, out) {
        Ok(_) => Status::Done { cut: 0 },
        Err(fault) => status_of_fault(fault),
    }
}

/// The status of a command whose script was not compiled.
fn status_of_fault(fault: CompileFault) -> Status
    ensures { result ≡ status_of fault }
{
    match fault {
        CompileFault::Send(SendFault::Memory) => Status::Memory,
        CompileFault::Send(SendFault::Plan(fault)) => Status::PlanRefused(fault),
        CompileFault::Send(SendFault::Schedule { row, fault }) => {
            Status::ScheduleRefused { row, fault }
        }
        CompileFault::Write => Status::WriteFault(Which::Out),
    }
}
