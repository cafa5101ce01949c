//! The definitions of a set that say something else under the version that the last one had.

ghost use Rattle.std.specs.Prelude.{◌<◌, ◌++◌, List, ℕ, Some, if◌then◌else◌, []};
ghost use Rattle.command_text.specs.Putting.{PutsOut};
ghost use Rattle.decoder_model.specs.declared.set_end.SetEnd.TheVariants.{Shown};
ghost use Rattle.display_sets.specs.Filling.{AreBytes};
ghost use Rattle.fault_text.specs.FaultText.{set_line};
ghost use Rattle.fault_text.specs.Faulting.{PutsChange, PutsChanges};
ghost use Rattle.set_definitions.specs.Definitions.{definition_of as definition_in, earlier_in, same_version_line as same_version_line_of};
ghost use Rattle.set_definitions.specs.Knowing.{Knows};
ghost use Rattle.set_definitions.specs.declared.definition.Definition.{Definition as DefinitionOf};
ghost use Rattle.set_definitions.specs.declared.definition.TheConstants.{NAMES};

use crate::lines::same_version_line;
use crate::sets::put_first;
use command_text::{TextBuffer, put};
use set_definitions::{Definition, Known, definition_of, first_segment, is_new_epoch, says_else};
use sub_base::Sink;

/// Forgets what is known where an epoch begins with the set of these segments.
pub(crate) fn begin_epoch(known: &mut Known, bytes: &[u8])
    ensures { (segments : List (List ℕ)) → AreBytes segments bytes.now
        → (earlier : List DefinitionOf) → Knows known.old earlier
        → Knows known.new (earlier_in segments earlier) }
{
    if is_new_epoch(bytes) {
        known.forget();
    }
}

/// Learns the definitions in the segments of a set that is shown, and puts out the lines of those
/// that say something else. The line of the set stands already, or is put out before the first.
pub(crate) fn put_changes<K: Sink>(
    out: &mut K,
    buffer: &mut TextBuffer,
    number: u64,
    pts: u64,
    stands: bool,
    known: &mut Known,
    bytes: &[u8],
)
    ensures { PutsChanges bytes.now number pts stands
        (K.received out.old)
        (K.received out.new)
        known.old known.new buffer.old buffer.new }
{
    let mut stands = stands;
    let mut rest = bytes;
    while let Some((segment, behind)) = first_segment(rest) {
        stands = put_change(out, buffer, number, pts, stands, known, segment);
        rest = behind;
    }
}

/// The same of one segment. Answers whether the line of the set stands then.
fn put_change<K: Sink>(
    out: &mut K,
    buffer: &mut TextBuffer,
    number: u64,
    pts: u64,
    stands: bool,
    known: &mut Known,
    segment: &[u8],
) -> bool
    ensures { PutsChange (definition_in segment.now) number pts stands result
        (K.received out.old)
        (K.received out.new)
        known.old known.new buffer.old buffer.new }
{
    match definition_of(segment) {
        None => stands,
        Some(one) => put_definition(out, buffer, number, pts, stands, known, one),
    }
}

/// The same of one definition.
fn put_definition<K: Sink>(
    out: &mut K,
    buffer: &mut TextBuffer,
    number: u64,
    pts: u64,
    stands: bool,
    known: &mut Known,
    one: Definition,
) -> bool
    requires { one.name < NAMES }
    ensures { PutsChange (Some one) number pts stands result
        (K.received out.old)
        (K.received out.new)
        known.old known.new buffer.old buffer.new }
{
    let last = known.last(one.name);
    known.learn(one);
    if says_else(one.said, last) {
        put_changed(out, buffer, number, pts, stands, one);
        true
    } else {
        stands
    }
}

/// Puts out the line of a definition, and before it that of its set where that does not stand yet.
fn put_changed<K: Sink>(
    out: &mut K,
    buffer: &mut TextBuffer,
    number: u64,
    pts: u64,
    stands: bool,
    one: Definition,
)
    ensures { PutsOut
        (K.received out.old)
        (K.received out.new)
        buffer.old buffer.new
        ((if stands then [] else set_line number pts Shown) ++ same_version_line_of one) }
{
    put_first(out, buffer, number, pts, stands);
    put(out, buffer, same_version_line(one).as_bytes());
}
