ghost use Rattle.std.specs.Prelude.{◌≡◌, IfErr, IfOk};
ghost use Rattle.page_pair.specs.PairOutcome.{ReadsPlainScript};
ghost use Rattle.page_pair.specs.Private.Reading.{IsReadStop};

use cue_list::{Script, ScriptFault};
use script_input::{Input, InputEnd, read_script};
use std::alloc::Global;
use sub_base::Source;

/// Why a script was not read.
#[derive(Clone, Copy, Debug, PartialEq, Eq)]
pub(crate) enum ReadStop {
    /// No memory was found.
    Memory,
    /// The text is no script; the fault is never want of memory.
    Refused(ScriptFault),
    /// The source could not be read.
    Unread,
    /// The source gave more bytes than a script may have.
    TooLong,
}

/// The script that is in a source, in the font without glyphs. The other source is not called.
pub(crate) fn read_plain<A: Source, B: Source>(
    alloc: Global,
    source: &mut A,
    other: &mut B,
) -> Result<Script, ReadStop>
    ensures reads { IfOk result
        (ReadsPlainScript (A.supplied source.old) (A.supplied source.new)) }
    ensures stop { IfErr result (IsReadStop (A.supplied source.old) (A.supplied source.new)) }
    ensures other { other.new ≡ other.old }
{
    match read_script(alloc, false, source, other) {
        Ok(script) => Ok(script),
        Err(InputEnd::ScriptRefused(fault)) => Err(ReadStop::Refused(fault)),
        Err(InputEnd::Unread(Input::Script)) => Err(ReadStop::Unread),
        Err(InputEnd::TooLong(Input::Script)) => Err(ReadStop::TooLong),
        // No font is read, so none is faulty.
        Err(InputEnd::FontRefused(_)) => Err(ReadStop::Memory),
        Err(InputEnd::Unread(Input::Font)) => Err(ReadStop::Memory),
        Err(InputEnd::TooLong(Input::Font)) => Err(ReadStop::Memory),
        Err(InputEnd::Memory) => Err(ReadStop::Memory),
    }
}
