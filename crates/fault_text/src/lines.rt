//! The lines of the text.

ghost use Rattle.std.specs.Prelude.{◌≡◌, ◌≤◌, ◌++◌, codes, length};
ghost use Rattle.command_text.specs.Lines.{line_end, then_number};
ghost use Rattle.fault_text.specs.FaultText.{end_text, outside_line as outside_line_of};
ghost use Rattle.fault_text.specs.FaultText.{set_front as set_front_of};
ghost use Rattle.set_definitions.specs.Definitions.{same_version_line as same_version_line_of};

use crate::set_faults::push_set_fault;
use crate::tally::Tally;
use command_text::Line;
use decoder_model::SetEnd;
use set_definitions::Definition;
use stream_syntax::PageEntry;

/// The front of the line of a set of that number and time.
pub(crate) fn set_front(number: u64, pts: u64) -> Line
    ensures line { result ≡ set_front_of number pts }
    ensures short { length result ≤ 128 }
{
    let mut line = Line::of("set");
    line.push_then_number(number);
    line.push_then_number(pts);
    line
}

/// The rest of the line of a set with that end.
pub(crate) fn set_rest(end: SetEnd) -> Line
    ensures line { result ≡ end_text end ++ line_end }
    ensures short { length result ≤ 128 }
{
    let mut line = set_end(end);
    line.push_text("\n");
    line
}

/// What becomes of a set.
fn set_end(end: SetEnd) -> Line
    ensures line { result ≡ end_text end }
    ensures short { length result ≤ 100 }
{
    match end {
        SetEnd::Shown => Line::of(" shown"),
        SetEnd::Waiting => Line::of(" waiting"),
        SetEnd::Broken(fault) => {
            let mut line = Line::of(" broken ");
            push_set_fault(&mut line, fault);
            line
        }
        SetEnd::NotLater { last: _ } => Line::of(" notlater"),
    }
}

/// The line of a region that does not lie inside the display.
pub(crate) fn outside_line(entry: PageEntry) -> Line
    ensures line { result ≡ outside_line_of entry }
    ensures short { length result ≤ 128 }
{
    let mut line = Line::of("outside");
    line.push_then_number(u64::from(entry.region));
    line.push_text("\n");
    line
}

/// The line of a definition that says something else under the version of the last one.
pub(crate) fn same_version_line(one: Definition) -> Line
    ensures line { result ≡ same_version_line_of one }
    ensures short { length result ≤ 128 }
{
    let mut line = Line::of("sameversion ");
    line.push_hex(one.kind);
    line.push_then_number(u64::from(one.id));
    line.push_text("\n");
    line
}

/// The front of the line of a tally: how many sets there are, are shown and wait.
pub(crate) fn tally_front(sets: u64, tally: &Tally) -> Line
    ensures line { result ≡ codes "sets" ++ then_number sets ++ codes " shown"
        ++ then_number tally.now.shown ++ codes " waiting" ++ then_number tally.now.waiting }
    ensures short { length result ≤ 128 }
{
    let mut line = Line::of("sets");
    line.push_then_number(sets);
    line.push_text(" shown");
    line.push_then_number(tally.shown);
    line.push_text(" waiting");
    line.push_then_number(tally.waiting);
    line
}

/// The rest of it: how many are broken and are not later, and how many losses there are.
pub(crate) fn tally_rest(tally: &Tally) -> Line
    ensures line { result ≡ codes " broken" ++ then_number tally.now.broken ++ codes " notlater"
        ++ then_number tally.now.not_later ++ codes " lost" ++ then_number tally.now.lost
        ++ line_end }
    ensures short { length result ≤ 128 }
{
    let mut line = Line::of(" broken");
    line.push_then_number(tally.broken);
    line.push_text(" notlater");
    line.push_then_number(tally.not_later);
    line.push_text(" lost");
    line.push_then_number(tally.lost);
    line.push_text("\n");
    line
}
