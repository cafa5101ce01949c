//! What the segments of display sets define (EN 300 743, clause 7.2).

ghost use Rattle.std.specs.Prelude.{◌≡◌, ◌<◌, drop, IfSome};
ghost use Rattle.set_definitions.specs.Definitions.{definition_of as definition_in, defines as defines_so};
ghost use Rattle.set_definitions.specs.Definitions.{is_mode_change as is_page_of_mode_change, said_behind as said_behind_of, says_else as says_else_of};
ghost use Rattle.set_definitions.specs.declared.definition.TheConstants.{NAMES};
ghost use Rattle.stream_syntax.specs.Tests.{byte_at as byte_in, word_at as word_in};

use psi_tables::crc;
use stream_syntax::{
    CLUT_DEFINITION, DISPLAY_DEFINITION, OBJECT_DATA, PAGE_COMPOSITION, REGION_COMPOSITION,
};

/// How many things sets can define: a page, a display, 256 regions, 256 CLUTs, and 65,536 objects.
pub const NAMES: usize = 66_050;

/// What is compared of what a definition says, and its version.
#[derive(Clone, Copy)]
pub struct Said {
    /// Its version, 0 to 15.
    pub version: u8,
    /// How many bytes it has behind the byte of its version.
    pub size: usize,
    /// The CRC of these.
    pub check: u32,
}

/// A definition in a display set.
#[derive(Clone, Copy)]
pub struct Definition {
    /// The type of its segment (segment_type).
    pub kind: u8,
    /// The id of what it defines, and 0 for a page or a display.
    pub id: u16,
    /// The number of what it defines, below `NAMES`.
    pub name: usize,
    /// What it says.
    pub said: Said,
}

/// What a segment defines, where it defines anything.
pub fn definition_of(segment: &[u8]) -> Option<Definition>
    ensures definition { result ≡ definition_in segment.now }
    ensures named { IfSome result (λ one. one.name < NAMES) }
{
    let kind = byte_at(segment, 1);
    let id = byte_at(segment, 6);
    if kind == PAGE_COMPOSITION {
        Some(defines(kind, 0, 0, 7, segment))
    } else if kind == DISPLAY_DEFINITION {
        Some(defines(kind, 0, 1, 6, segment))
    } else if kind == REGION_COMPOSITION {
        Some(defines(kind, u16::from(id), 2 + usize::from(id), 7, segment))
    } else if kind == CLUT_DEFINITION {
        Some(defines(kind, u16::from(id), 258 + usize::from(id), 7, segment))
    } else if kind == OBJECT_DATA {
        let object = word_at(segment, 6);
        Some(defines(kind, object, 514 + usize::from(object), 8, segment))
    } else {
        None
    }
}

/// A definition of that kind, id and number, whose version stands in the byte of that place.
fn defines(kind: u8, id: u16, name: usize, place: usize, segment: &[u8]) -> Definition
    requires { place < 16 }
    ensures definition { result ≡ defines_so kind id name place segment.now }
    ensures name { result.name ≡ name }
{
    Definition {
        kind,
        id,
        name,
        said: said_behind(place, segment),
    }
}

/// What the bytes of a segment say whose version stands in the byte of that place.
fn said_behind(place: usize, segment: &[u8]) -> Said
    requires { place < 16 }
    ensures { result ≡ said_behind_of place segment.now }
{
    let behind = behind(segment, place + 1);
    Said {
        version: byte_at(segment, place) / 16,
        size: behind.len(),
        check: crc(behind),
    }
}

/// The bytes from a place on; none past the end.
fn behind(bytes: &[u8], place: usize) -> &[u8]
    ensures { result.now ≡ drop place bytes.now }
{
    if place < bytes.len() {
        &bytes[place..]
    } else {
        &[]
    }
}

/// The byte at a place, and 0 past the end.
fn byte_at(bytes: &[u8], place: usize) -> u8
    ensures { result ≡ byte_in place bytes.now }
{
    if place < bytes.len() { bytes[place] } else { 0 }
}

/// The number of two bytes from a place on.
fn word_at(bytes: &[u8], place: usize) -> u16
    requires { place < 16 }
    ensures { result ≡ word_in place bytes.now }
{
    u16::from(byte_at(bytes, place)) * 256 + u16::from(byte_at(bytes, place + 1))
}

/// Whether a definition says something else than the last one before it, under its version: the
/// bytes behind that of the version differ in number or in CRC. What stands beside the version in
/// its byte, and the time-out of a page before it, is not compared.
pub fn says_else(said: Said, last: Option<Said>) -> bool
    ensures { result ≡ says_else_of said last }
{
    match last {
        None => false,
        Some(last) => {
            last.version == said.version && !(last.size == said.size && last.check == said.check)
        }
    }
}

/// Whether a segment is a page of the state mode change.
pub(crate) fn is_mode_change(segment: &[u8]) -> bool
    ensures { result ≡ is_page_of_mode_change segment.now }
{
    byte_at(segment, 1) == PAGE_COMPOSITION && byte_at(segment, 7) / 4 % 4 == 2
}
