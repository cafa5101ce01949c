ghost use Rattle.sub_base.specs.Seen.{seen};
ghost use Rattle.sub_base.specs.ToolOutcome.{HasToolCause, IsToolCause, IsToolRun, IsToolWhole};
ghost use Rattle.splice.specs.SpliceOutcome.{LeavesEmpty, splice_causes, splice_fault_name};
ghost use Rattle.splice.specs.SpliceWords.{splice_words};
ghost use Rattle.splice.specs.SplicedSets.{IsSplicing};

use crate::input::{read_stream, unread};
use crate::joined::Joined;
use crate::part::Part;
use crate::refusal::refusal_of;
use crate::sent::send;
use crate::splice_fault::SpliceFault;
use crate::splice_words::{Splicing, splicing_in};
use command_text::tell_tool;
use std::alloc::Global;
use sub_base::{Sink, Source, ToolStatus, Which, Words};

/// Joins two streams at a cut, as the words `splice PROFILE PID PAGE ORIGIN CUT STREAM1 STREAM2
/// OUT` say: reads both streams to their ends, writes the packets of the joined streams to `out`,
/// and tells how it ended, by its answer and by one line to `notes`.
pub fn splice_top<A: Source, B: Source, K: Sink, N: Sink>(
    alloc: Global,
    words: &Words,
    first: &mut A,
    second: &mut B,
    out: &mut K,
    notes: &mut N,
) -> ToolStatus<SpliceFault>
    // With `Done` a receiver of what was written shows before the cut what the first stream shows,
    // and from the cut on what the second shows.
    ensures cause { HasToolCause splice_fault_name splice_causes (splice_words words.now)
        (seen (A.supplied first.old) (B.supplied second.old) (K.received out.old))
        (seen (A.supplied first.new) (B.supplied second.new) (K.received out.new))
        (N.received notes.old) (N.received notes.new) result }

    // Where the words are a command and nothing gives a cause of refusal, it is done, or memory is
    // wanting.
    ensures complete { IsToolWhole splice_causes (splice_words words.now)
        (seen (A.supplied first.old) (B.supplied second.old) (K.received out.old))
        (seen (A.supplied first.new) (B.supplied second.new) (K.received out.new))
        (N.received notes.old) (N.received notes.new) result }

    // Nothing was written but with `Done` and with a write fault.
    ensures nothing { LeavesEmpty (K.received out.old) (K.received out.new) result }
{
    let status = run(alloc, words, first, second, out);
    tell_tool(status, notes)
}

/// Carries out the command, without telling how it ended.
fn run<A: Source, B: Source, K: Sink>(
    alloc: Global,
    words: &Words,
    first: &mut A,
    second: &mut B,
    out: &mut K,
) -> ToolStatus<SpliceFault>
    ensures cause { IsToolRun splice_causes (splice_words words.now)
        (seen (A.supplied first.old) (B.supplied second.old) (K.received out.old))
        (seen (A.supplied first.new) (B.supplied second.new) (K.received out.new))
        result }
    ensures nothing { LeavesEmpty (K.received out.old) (K.received out.new) result }
{
    match splicing_in(words) {
        None => ToolStatus::Usage,
        Some(splicing) => splice(alloc, splicing, first, second, out),
    }
}

/// Joins two streams: both are read to their ends before any is refused.
fn splice<A: Source, B: Source, K: Sink>(
    alloc: Global,
    splicing: Splicing,
    first: &mut A,
    second: &mut B,
    out: &mut K,
) -> ToolStatus<SpliceFault>
    requires ranges { IsSplicing splicing }
    ensures cause { IsToolCause (splice_causes splicing
        (seen (A.supplied first.old) (B.supplied second.old) (K.received out.old))
        (seen (A.supplied first.new) (B.supplied second.new) (K.received out.new)))
        (seen (A.supplied first.old) (B.supplied second.old) (K.received out.old))
        (seen (A.supplied first.new) (B.supplied second.new) (K.received out.new))
        result }
    ensures nothing { LeavesEmpty (K.received out.old) (K.received out.new) result }
{
    let front = Part::Before(splicing.cut);
    let mut joined = Joined::new(alloc);
    let one = match read_stream(alloc, splicing, splicing.origin, front, first, &mut joined) {
        Ok(one) => one,
        Err(fault) => return unread(Which::First, fault),
    };
    let last = joined.last_time();
    let rest = Part::From(splicing.cut);
    let two = match read_stream(alloc, splicing, 0, rest, second, &mut joined) {
        Ok(two) => two,
        Err(fault) => return unread(Which::Second, fault),
    };
    match refusal_of(splicing, one, two, last) {
        Some(fault) => ToolStatus::Refused(fault),
        None => send(alloc, splicing, &joined, out),
    }
}
