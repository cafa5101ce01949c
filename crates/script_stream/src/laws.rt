ghost use Rattle.std.specs.Prelude.{◌<◌, List, ℕ};
ghost use Rattle.shown_stream.specs.Compiled.{IsCompiledFor, IsCompiledTo, Compiling};
ghost use Rattle.stream_syntax.specs.declared.wire.TheConstants.{NULL_PID};
ghost use Rattle.script_stream.specs.ShownRightly.{IsShownRightly};

/// The bytes to which a script is compiled are packets. Receivers show of them what the script
/// authors, wherever they enter and whatever they lose, and their buffers hold them in time.
pub fn compiled_is_shown()
    ensures { (compiling : Compiling) (bytes : List ℕ)
        → compiling.pid < NULL_PID → IsCompiledFor compiling.profile
        → (compiled : IsCompiledTo compiling bytes)
        → IsShownRightly compiling
        compiled.sets compiled.loads compiled.table bytes }
{}
