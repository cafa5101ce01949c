ghost use Rattle.std.specs.Prelude.{◌≤◌, IfOk};
ghost use Rattle.dvbsub_words.specs.Command.{IsGeneratedFor};
ghost use Rattle.dvbsub_cmd.specs.Private.Generating.{IsCompiledFrom, IsWanting};

use cue_list::Script;
use generated_script::generate;
use script_stream::{CompileFault, ScriptStream, SendFault, compile_script};
use std::alloc::Global;
use sub_base::{MemSink, NoMemory, ProfileName};

/// The PID of the packets of a generated script.
pub const PID: u16 = 256;

/// The page id of their segments.
pub const PAGE: u16 = 1;

/// A generated script, its sets and their slots, and its packets.
#[derive(Drop)]
pub struct Generated {
    pub script: Script,
    pub sent: ScriptStream,
    pub stream: MemSink,
}

/// The script of so many cues, and the packets that it is compiled to for a profile.
pub fn compiled(alloc: Global, number: u64, profile: ProfileName) -> Result<Generated, NoMemory>
    requires some { 1 ≤ number }
    requires few { number ≤ 500 }
    requires profile { IsGeneratedFor profile }
    ensures { IfOk result (IsCompiledFrom number profile) }
{
    let script = generate(alloc, number)?;
    // Memory takes all that is written at once.
    let mut stream = MemSink::make(alloc, usize::MAX, Vec::new(alloc));
    match compile_script(alloc, profile, PID, PAGE, &script, &mut stream) {
        Ok(sent) => Ok(Generated {
            script,
            sent,
            stream,
        }),
        Err(fault) => Err(wanting(fault)),
    }
}

/// Memory alone can be wanting: a generated script has a plan and a schedule for each of these
/// profiles.
fn wanting(fault: CompileFault) -> NoMemory
    requires { IsWanting fault }
{
    match fault {
        CompileFault::Send(SendFault::Memory) => NoMemory,
        CompileFault::Send(SendFault::Plan(_)) => unreachable!(),
        CompileFault::Send(SendFault::Schedule { .. }) => unreachable!(),
        CompileFault::Write => NoMemory,
    }
}
