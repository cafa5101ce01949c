ghost use Rattle.page_pair.specs.PairTop.{pair_command, tool_causes};
ghost use Rattle.splice.specs.SpliceOutcome.{splice_causes};
ghost use Rattle.splice.specs.SpliceWords.{splice_words};
ghost use Rattle.tool_files.specs.Ends.{MayToolEnd};

use crate::files::{ToolFiles, end};
use crate::reasons::FileNames;
use command_words::InputPlaces;
use page_pair::pair_top;
use splice::{splice_inputs, splice_top};
use std::io;
use std::thread::Threads;
use sub_base::{FileSink, NoGate, Words};

/// Sends two scripts on one PID, or tells the pictures of one of them: `pairdump` names no second
/// file, and does not call the second source.
pub(crate) fn pair<'a, T: Threads + Sync>(
    rt: &'a HostRuntime,
    threads: &T,
    words: &'a Words,
    places: InputPlaces,
) -> u8
    ensures { MayToolEnd (tool_causes words.now) (pair_command words.now) result }
{
    let names = FileNames { words, places };
    let ToolFiles {
        mut first,
        mut second,
        mut output,
    } = ToolFiles::of(rt, names);
    let status = pair_top(
        threads,
        rt.alloc(),
        words,
        &mut first,
        &mut second,
        &mut FileSink::make(Some(&mut output)),
        &mut FileSink::make(Some(io::sink())),
        &NoGate,
    );
    end(rt, names, &mut output, status)
}

/// Joins two streams at a cut.
pub(crate) fn join<'a>(rt: &'a HostRuntime, words: &'a Words) -> u8
    ensures { MayToolEnd splice_causes (splice_words words.now) result }
{
    let names = FileNames {
        words,
        places: splice_inputs(words),
    };
    let ToolFiles {
        mut first,
        mut second,
        mut output,
    } = ToolFiles::of(rt, names);
    let status = splice_top(
        rt.alloc(),
        words,
        &mut first,
        &mut second,
        &mut FileSink::make(Some(&mut output)),
        &mut FileSink::make(Some(io::sink())),
    );
    end(rt, names, &mut output, status)
}
