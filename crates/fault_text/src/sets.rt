//! What is told of a set.

ghost use Rattle.std.specs.Prelude.{◌≡◌, ◌<◌, ◌^◌, ◌∷◌, ◌++◌, true, false, if◌then◌else◌, [], List, ℕ};
ghost use Rattle.command_text.specs.Putting.{PutsOut};
ghost use Rattle.decoder_model.specs.declared.set_end.SetEnd.TheVariants.{Shown};
ghost use Rattle.fault_text.specs.FaultText.{outside_line as outside_line_of, set_count, set_line, tally_line};
ghost use Rattle.fault_text.specs.Faulting.{PutsFront, PutsSet, outside_lines, rest_text};
ghost use Rattle.stream_syntax.specs.declared.page.PageEntry.{PageEntry as EntryOf};

use crate::changes::{begin_epoch, put_changes};
use crate::lines::{outside_line, set_front, set_rest, tally_front, tally_rest};
use crate::tally::Tally;
use command_text::{TextBuffer, put};
use decoder_model::SetEnd;
use page_core::{Core, Scene};
use set_definitions::Known;
use stream_syntax::PageEntry;
use sub_base::Sink;

/// Puts out what is told of a set of that number, time and end with these bytes, which the page
/// memory has, and learns its definitions.
pub(crate) fn put_set<K: Sink>(
    out: &mut K,
    buffer: &mut TextBuffer,
    number: u64,
    pts: u64,
    end: SetEnd,
    core: &Core,
    known: &mut Known,
    bytes: &[u8],
)
    requires known { end ≡ Shown → core.now.known ≡ true }
    ensures { PutsSet core.now bytes.now number pts end
        (K.received out.old)
        (K.received out.new)
        known.old known.new buffer.old buffer.new }
{
    match end {
        SetEnd::Shown => put_shown(out, buffer, number, pts, core, known, bytes),
        SetEnd::Waiting => {
            known.forget();
            put_line(out, buffer, number, pts, SetEnd::Waiting);
        }
        SetEnd::Broken(fault) => {
            known.forget();
            put_line(out, buffer, number, pts, SetEnd::Broken(fault));
        }
        SetEnd::NotLater { last } => {
            put_line(out, buffer, number, pts, SetEnd::NotLater { last });
        }
    }
}

/// The same of a set that is shown.
fn put_shown<K: Sink>(
    out: &mut K,
    buffer: &mut TextBuffer,
    number: u64,
    pts: u64,
    core: &Core,
    known: &mut Known,
    bytes: &[u8],
)
    requires known { core.now.known ≡ true }
    ensures { PutsSet core.now bytes.now number pts Shown
        (K.received out.old)
        (K.received out.new)
        known.old known.new buffer.old buffer.new }
{
    begin_epoch(known, bytes);
    let stands = put_found(out, buffer, number, pts, &core.scene());
    put_changes(out, buffer, number, pts, stands, known, bytes);
}

/// Puts out the line of a set.
fn put_line<K: Sink>(out: &mut K, buffer: &mut TextBuffer, number: u64, pts: u64, end: SetEnd)
    ensures { PutsOut
        (K.received out.old)
        (K.received out.new)
        buffer.old buffer.new (set_line number pts end) }
{
    put(out, buffer, set_front(number, pts).as_bytes());
    put(out, buffer, set_rest(end).as_bytes());
}

/// Puts out the lines of the regions of a page that do not lie inside the display, behind the line
/// of their set; nothing where all do. Answers whether the line of the set stands then.
fn put_found<K: Sink>(
    out: &mut K,
    buffer: &mut TextBuffer,
    number: u64,
    pts: u64,
    scene: &Scene<'_>,
) -> bool
    ensures { (more : List (List ℕ)) → PutsFront
        (K.received out.old)
        (K.received out.new)
        buffer.old buffer.new
        (rest_text false number pts
        (outside_lines scene.now scene.now.composition.entries ++ more))
        (rest_text result number pts more) }
{
    let mut stands = false;
    let mut entries = scene.entries();
    while let Some(entry) = entries.next_entry() {
        stands = put_entry(out, buffer, number, pts, scene, stands, entry);
    }
    stands
}

/// Puts out the line of the region of an entry, where it does not lie inside the display. Answers
/// whether the line of the set stands then.
fn put_entry<K: Sink>(
    out: &mut K,
    buffer: &mut TextBuffer,
    number: u64,
    pts: u64,
    scene: &Scene<'_>,
    stands: bool,
    entry: PageEntry,
) -> bool
    ensures { (left : List EntryOf) (more : List (List ℕ)) → PutsFront
        (K.received out.old)
        (K.received out.new)
        buffer.old buffer.new
        (rest_text stands number pts (outside_lines scene.now (entry ∷ left) ++ more))
        (rest_text result number pts (outside_lines scene.now left ++ more)) }
{
    if scene.is_outside(entry) {
        put_outside(out, buffer, number, pts, stands, entry);
        true
    } else {
        stands
    }
}

/// Puts out the line of a region, and before it that of its set where that does not stand yet.
fn put_outside<K: Sink>(
    out: &mut K,
    buffer: &mut TextBuffer,
    number: u64,
    pts: u64,
    stands: bool,
    entry: PageEntry,
)
    ensures { PutsOut
        (K.received out.old)
        (K.received out.new)
        buffer.old buffer.new
        ((if stands then [] else set_line number pts Shown) ++ outside_line_of entry) }
{
    put_first(out, buffer, number, pts, stands);
    put(out, buffer, outside_line(entry).as_bytes());
}

/// Puts out the line of a set that is shown, where it does not stand yet.
pub(crate) fn put_first<K: Sink>(
    out: &mut K,
    buffer: &mut TextBuffer,
    number: u64,
    pts: u64,
    stands: bool,
)
    ensures { PutsOut
        (K.received out.old)
        (K.received out.new)
        buffer.old buffer.new (if stands then [] else set_line number pts Shown) }
{
    if !stands {
        put_line(out, buffer, number, pts, SetEnd::Shown);
    }
}

/// Puts out how many sets came to each end.
pub(crate) fn put_tally<K: Sink>(out: &mut K, buffer: &mut TextBuffer, tally: Tally)
    requires { set_count tally < 2 ^ 63 }
    ensures { PutsOut
        (K.received out.old)
        (K.received out.new)
        buffer.old buffer.new (tally_line tally) }
{
    put(out, buffer, tally_front(tally.sets(), &tally).as_bytes());
    put(out, buffer, tally_rest(&tally).as_bytes());
}
