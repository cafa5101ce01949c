//! The lines of services.

ghost use Rattle.std.specs.Prelude.{◌≡◌, ◌≤◌, length};
ghost use Rattle.std.specs.List.{flat_map};
ghost use Rattle.command_text.specs.Putting.{PutsOut};
ghost use Rattle.service_text.specs.ServiceText.{page_part, service_line, stream_part};
ghost use Rattle.service_text.specs.ServiceText.{told_letter};
ghost use Rattle.service_text.specs.Listing.{listing_text};

use crate::list::ServiceList;
use crate::service::SubtitleService;
use command_text::{Line, TextBuffer, put};
use sub_base::Sink;

/// What is told in the place of a letter that is no printable character of ASCII.
const NO_LETTER: u8 = b'?';

/// Puts out the lines of services, and one that says that there are more.
pub(crate) fn put_services<K: Sink>(out: &mut K, buffer: &mut TextBuffer, list: &ServiceList)
    ensures { PutsOut
        (K.received out.old)
        (K.received out.new)
        buffer.old buffer.new (listing_text list.now) }
{
    put_entries(out, buffer, list.entries());
    if list.has_more() {
        put(out, buffer, b"more\n");
    }
}

fn put_entries<K: Sink>(out: &mut K, buffer: &mut TextBuffer, entries: &[SubtitleService])
    ensures { PutsOut
        (K.received out.old)
        (K.received out.new)
        buffer.old buffer.new (flat_map service_line entries.now) }
{
    for entry in entries {
        put_service(out, buffer, *entry);
    }
}

/// Puts out the line of a service.
fn put_service<K: Sink>(out: &mut K, buffer: &mut TextBuffer, service: SubtitleService)
    ensures { PutsOut
        (K.received out.old)
        (K.received out.new)
        buffer.old buffer.new (service_line service) }
{
    put(out, buffer, stream_line(service).as_bytes());
    put(out, buffer, page_line(service).as_bytes());
}

/// What the line of a service begins with: its programme, its stream and its language.
fn stream_line(service: SubtitleService) -> Line
    ensures line { result ≡ stream_part service }
    ensures short { length result ≤ 128 }
{
    let mut line = Line::of("service");
    line.push_then_number(u64::from(service.number));
    line.push_text(" pid");
    line.push_then_number(u64::from(service.pid));
    line.push_text(" ");
    line.push_byte(letter(service.language[0]));
    line.push_byte(letter(service.language[1]));
    line.push_byte(letter(service.language[2]));
    line
}

/// What it ends with: its type and its pages.
fn page_line(service: SubtitleService) -> Line
    ensures line { result ≡ page_part service }
    ensures short { length result ≤ 128 }
{
    let mut line = Line::of(" type");
    line.push_then_number(u64::from(service.kind));
    line.push_text(" page");
    line.push_then_number(u64::from(service.page));
    line.push_text(" ancillary");
    line.push_then_number(u64::from(service.ancillary));
    line.push_text("\n");
    line
}

/// A letter as it is told.
fn letter(letter: u8) -> u8
    ensures { result ≡ told_letter letter }
{
    if letter.is_ascii_graphic() {
        letter
    } else {
        NO_LETTER
    }
}
