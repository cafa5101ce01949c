ghost use Rattle.service_mux.specs.MuxOutcome.{mux_causes};
ghost use Rattle.service_mux.specs.MuxWords.{mux_words};
ghost use Rattle.service_mux.specs.TakeOutcome.{take_causes};
ghost use Rattle.service_mux.specs.TakeWords.{take_words};
ghost use Rattle.tool_files.specs.Ends.{MayToolEnd};

use crate::files::{ToolFiles, end};
use crate::reasons::FileNames;
use service_mux::{mux_inputs, mux_top, take_inputs, take_top};
use std::io;
use sub_base::{FileSink, Words};

/// Joins two streams to one multiplex.
pub(crate) fn mux<'a>(rt: &'a HostRuntime, words: &'a Words) -> u8
    ensures { MayToolEnd mux_causes (mux_words words.now) result }
{
    let names = FileNames {
        words,
        places: mux_inputs(words),
    };
    let ToolFiles {
        mut first,
        mut second,
        mut output,
    } = ToolFiles::of(rt, names);
    let status = mux_top(
        rt.alloc(),
        words,
        &mut first,
        &mut second,
        &mut FileSink::make(Some(&mut output)),
        &mut FileSink::make(Some(io::sink())),
    );
    end(rt, names, &mut output, status)
}

/// Takes a service out of a multiplex.
pub(crate) fn take<'a>(rt: &'a HostRuntime, words: &'a Words) -> u8
    ensures { MayToolEnd take_causes (take_words words.now) result }
{
    let names = FileNames {
        words,
        places: take_inputs(words),
    };
    let ToolFiles {
        mut first,
        second: _,
        mut output,
    } = ToolFiles::of(rt, names);
    let status = take_top(
        rt.alloc(),
        words,
        &mut first,
        &mut FileSink::make(Some(&mut output)),
        &mut FileSink::make(Some(io::sink())),
    );
    end(rt, names, &mut output, status)
}
