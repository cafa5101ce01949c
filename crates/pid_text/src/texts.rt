//! The texts of a PID.

ghost use Rattle.std.specs.Prelude.{◌≡◌, ◌≤◌, length};
ghost use Rattle.std.specs.List.{flat_map};
ghost use Rattle.command_text.specs.Putting.{PutsOut};
ghost use Rattle.pid_text.specs.PidText.{units_part, times_part};
ghost use Rattle.pid_text.specs.Private.Telling.{entry_text, listing_text, slot_text, tally_text};

use crate::page_list::PageList;
use crate::page_tally::PageTally;
use crate::pid_tally::PidTally;
use crate::watch::Slot;
use command_text::{Line, TextBuffer, put};
use sub_base::Sink;

/// Puts out the text of a PID, where it has PES packets of subtitles.
pub(crate) fn put_slot<K: Sink>(out: &mut K, buffer: &mut TextBuffer, pid: u64, slot: &Slot)
    ensures { PutsOut
        (K.received out.old)
        (K.received out.new)
        buffer.old buffer.new (slot_text pid slot.now) }
{
    if let Some(watch) = &slot.watch {
        put_tally(out, buffer, pid, &watch.tally);
    }
}

fn put_tally<K: Sink>(out: &mut K, buffer: &mut TextBuffer, pid: u64, tally: &PidTally)
    ensures { PutsOut
        (K.received out.old)
        (K.received out.new)
        buffer.old buffer.new (tally_text pid tally.now) }
{
    if tally.units == 0 {
        return;
    }
    put(out, buffer, units_line(pid, tally.units).as_bytes());
    put(out, buffer, times_line(tally.first, tally.last).as_bytes());
    put_pages(out, buffer, &tally.pages);
}

/// What a PID's line begins with: how many PES packets of subtitles it has.
fn units_line(pid: u64, units: u64) -> Line
    ensures line { result ≡ units_part pid units }
    ensures short { length result ≤ 128 }
{
    let mut line = Line::of("pid");
    line.push_then_number(pid);
    line.push_text(" units");
    line.push_then_number(units);
    line
}

/// What it ends with: the times of the first and the last.
fn times_line(first: u64, last: u64) -> Line
    ensures line { result ≡ times_part first last }
    ensures short { length result ≤ 128 }
{
    let mut line = Line::of(" first");
    line.push_then_number(first);
    line.push_text(" last");
    line.push_then_number(last);
    line.push_text("\n");
    line
}

/// Puts out the lines of pages, and one that says that there are more.
fn put_pages<K: Sink>(out: &mut K, buffer: &mut TextBuffer, pages: &PageList)
    ensures { PutsOut
        (K.received out.old)
        (K.received out.new)
        buffer.old buffer.new (listing_text pages.now) }
{
    put_entries(out, buffer, pages.entries());
    if pages.has_more() {
        put(out, buffer, b"more\n");
    }
}

fn put_entries<K: Sink>(out: &mut K, buffer: &mut TextBuffer, entries: &[PageTally])
    ensures { PutsOut
        (K.received out.old)
        (K.received out.new)
        buffer.old buffer.new (flat_map entry_text entries.now) }
{
    for entry in entries {
        put(out, buffer, page_line(entry).as_bytes());
    }
}

/// The line of a page.
fn page_line(entry: &PageTally) -> Line
    ensures line { result ≡ entry_text entry.now }
    ensures short { length result ≤ 128 }
{
    let mut line = Line::of("page");
    line.push_then_number(u64::from(entry.page));
    line.push_text(" composition");
    line.push_then_number(entry.compositions);
    line.push_text(" ancillary");
    line.push_then_number(entry.ancillaries);
    line.push_text("\n");
    line
}
