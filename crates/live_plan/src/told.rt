ghost use Rattle.std.specs.Prelude.{◌≡◌, ◌<◌, ◌≤◌, OnErr, OnOk};
ghost use Rattle.sub_base.specs.Counts.{HasRisen};
ghost use Rattle.sub_base.specs.Endpoints.{Wrote, WrotePrefix};
ghost use Rattle.live_plan.specs.LiveOutcome.{refused_line as refused_line_of};

use crate::faults::RowFault;
use command_text::Line;
use sub_base::{FaultName, Sink, WriteFailed, write_whole};

/// Writes the line of a refused row, with its number among the pieces that have records.
pub(crate) fn tell_refused<N: Sink>(
    number: u64,
    fault: RowFault,
    notes: &mut N,
) -> Result<(), WriteFailed>
    ensures line { OnOk result
        (Wrote (N.received notes.old) (N.received notes.new) (refused_line_of number fault)) }
    ensures prefix { OnErr result
        (WrotePrefix (N.received notes.old) (N.received notes.new) (refused_line_of number fault)) }
    ensures kept { (N.received notes.old).faults ≤ (N.received notes.new).faults }
    ensures cause { OnErr result
        (HasRisen (N.received notes.old).faults (N.received notes.new).faults) }
{
    let line = refused_line(number, fault);
    write_whole(notes, line.as_bytes())
}

/// The line of a refused row, with its line feed.
fn refused_line(number: u64, fault: RowFault) -> Line
    ensures { result ≡ refused_line_of number fault }
{
    let mut line = Line::of("refused");
    line.push_then_number(number);
    line.push_text(" ");
    line.push_text(fault.name());
    line.push_text("\n");
    line
}
