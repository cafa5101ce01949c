ghost use Rattle.std.specs.Prelude.{◌≡◌, ◌≤◌, length};
ghost use Rattle.segments.specs.Contents.{display_value};
ghost use Rattle.segments.specs.Reading.{GivesReading, display_at, window_in};
ghost use Rattle.stream_syntax.specs.SegmentTests.{is_window};

use crate::fault::bad_length;
use crate::word::{is_set, read_word};
use stream_syntax::{SegmentFault, SegmentKind, Window};

/// The bytes before the window.
pub(crate) const FIXED: usize = 5;

/// The bytes with a window.
const WITH_WINDOW: usize = 13;

/// The display: its sides in pixels, and the window in which regions are placed (EN 300 743,
/// display definition segment).
#[derive(Clone, Copy, Debug, PartialEq, Eq)]
pub struct DisplaySeg {
    /// The version, 0 to 15 (dds_version_number).
    pub version: u8,
    /// The columns of the display, 1 to 65,536 (display_width, which is one less).
    pub width: u32,
    /// The rows of the display, 1 to 65,536 (display_height, which is one less).
    pub height: u32,
    /// The part in which regions are placed (display_window_flag and the positions behind it); all
    /// of the display where none is sent.
    pub window: Option<Window>,
}

/// Reads the body of a display definition. Bytes may follow the definition.
pub(crate) fn display_of(body: &[u8]) -> Result<DisplaySeg, SegmentFault>
    ensures { GivesReading display_value result (display_at body.now) }
{
    if body.len() < FIXED {
        return Err(bad_length());
    }
    let windowed = is_set(body[0], 3);
    if windowed && body.len() < WITH_WINDOW {
        return Err(bad_length());
    }
    if windowed && !is_window(body) {
        return Err(SegmentFault {
            // The window begins there, behind the head and the sides.
            place: 11,
            kind: SegmentKind::BadWindow,
        });
    }
    Ok(DisplaySeg {
        version: body[0] >> 4,
        // The standard sends the sides less one.
        width: read_word(body, 1) as u32 + 1,
        height: read_word(body, 3) as u32 + 1,
        window: if windowed {
            Some(window_of(body))
        } else {
            None
        },
    })
}

/// Whether the window is not empty, and inside the display.
fn is_window(body: &[u8]) -> bool
    requires { 13 ≤ length body.now }
    ensures { result ≡ is_window body.now }
{
    let (width, height) = (read_word(body, 1) as u32 + 1, read_word(body, 3) as u32 + 1);
    let window = window_of(body);
    window.left <= window.right
        && (window.right as u32) < width
        && window.top <= window.bottom
        && (window.bottom as u32) < height
}

/// The window, as it stands after the sides.
fn window_of(body: &[u8]) -> Window
    requires { 13 ≤ length body.now }
    ensures { result ≡ window_in body.now }
{
    Window {
        left: read_word(body, 5),
        right: read_word(body, 7),
        top: read_word(body, 9),
        bottom: read_word(body, 11),
    }
}
