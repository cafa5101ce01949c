ghost use Rattle.std.specs.Prelude.{◌≡◌, ◌≤◌, length};
ghost use Rattle.segments.specs.Contents.{clut_value, first_entry, items_left, full_colour, short_colour};
ghost use Rattle.segments.specs.Reading.{GivesReading, clut_at};
ghost use Rattle.stream_syntax.specs.SegmentTests.{are_whole, entry_size};

use crate::fault::bad_length;
use crate::word::{is_set, read_word};
use stream_syntax::{ClutEntry, SegmentFault};
use sub_base::Colour;

/// The bytes of a body before the entries.
pub(crate) const FIXED: usize = 2;

/// The bytes of an entry with a colour in the full range.
pub(crate) const FULL: usize = 6;

/// The bytes of an entry with the high bits of a colour.
const SHORT: usize = 4;

/// Entries of a CLUT (EN 300 743, CLUT definition segment).
#[derive(Clone, Copy, Debug, PartialEq, Eq)]
pub struct ClutSeg<'a> {
    /// The id of the CLUT (CLUT_id).
    pub clut: u8,
    /// The version, 0 to 15 (CLUT_version_number).
    pub version: u8,
    /// The entries, as bytes, in the full range or in the short one (full_range_flag).
    pub entries: &'a [u8],
}

impl ClutSeg<'_> {
    /// The entries in order. The low bits of a short colour are 0, and a luminance of 0 means full
    /// transparency.
    pub fn items(&self) -> ClutItems<'_>
        ensures { items_left result ≡ (clut_value self.now).entries }
    {
        ClutItems { rest: self.entries }
    }
}

/// The entries of a CLUT, in order.
#[derive(Clone, Copy, Debug)]
pub struct ClutItems<'a> {
    rest: &'a [u8],
}

impl Iterator for ClutItems<'_> {
    ghost use Rattle.std.specs.Iterator.{YieldsFirst, item_count};

    type Item = ClutEntry;

    ghost next_gives = { YieldsFirst items_left };

    ghost remaining = { item_count items_left };

    #[tactic(auto, using(crate::proofs::Entries::no_entry))]
    fn next(&mut self) -> Option<ClutEntry> {
        let size = entry_size(self.rest);
        // A segment that was read has whole entries; of other bytes a cut entry is none.
        if self.rest.len() < size {
            return None;
        }
        let entry = first_entry(self.rest);
        self.rest = &self.rest[size..];
        Some(entry)
    }
}

/// Reads the body of a CLUT definition.
pub(crate) fn clut_of(body: &[u8]) -> Result<ClutSeg<'_>, SegmentFault>
    ensures { GivesReading clut_value result (clut_at body.now) }
{
    if body.len() < FIXED || !are_whole(&body[FIXED..]) {
        return Err(bad_length());
    }
    Ok(ClutSeg {
        clut: body[0],
        version: body[1] >> 4,
        entries: &body[FIXED..],
    })
}

/// Whether no entry is cut.
#[tactic(auto, using(crate::proofs::Entries::are_whole_at_end, crate::proofs::Entries::are_whole_cut, crate::proofs::Entries::are_whole_more))]
fn are_whole(entries: &[u8]) -> bool
    ensures { result ≡ are_whole entries.now }
{
    let mut rest = entries;
    while !rest.is_empty() {
        let size = entry_size(rest);
        if rest.len() < size {
            return false;
        }
        rest = &rest[size..];
    }
    true
}

/// The bytes of the first entry.
fn entry_size(entries: &[u8]) -> usize
    ensures { result ≡ entry_size entries.now }
{
    if entries.len() > 1 && is_set(entries[1], 0) {
        FULL
    } else {
        SHORT
    }
}

/// The first entry.
fn first_entry(entries: &[u8]) -> ClutEntry
    requires { entry_size entries.now ≤ length entries.now }
    ensures { result ≡ first_entry entries.now }
{
    ClutEntry {
        entry: entries[0],
        two: is_set(entries[1], 7),
        four: is_set(entries[1], 6),
        eight: is_set(entries[1], 5),
        colour: if is_set(entries[1], 0) {
            full_colour(entries)
        } else {
            short_colour(entries)
        },
    }
}

/// The colour of an entry in the full range: Y_value, Cr_value, Cb_value, T_value of 8 bits each.
fn full_colour(entry: &[u8]) -> Colour
    requires { 6 ≤ length entry.now }
    ensures { result ≡ full_colour entry.now }
{
    Colour {
        y: entry[2],
        cr: entry[3],
        cb: entry[4],
        t: entry[5],
    }
    .shown()
}

/// The colour of an entry by its high bits: six of luminance, four of each difference, two of
/// transparency.
fn short_colour(entry: &[u8]) -> Colour
    requires { 4 ≤ length entry.now }
    ensures { result ≡ short_colour entry.now }
{
    let high = read_word(entry, 2);
    Colour {
        y: (high >> 10) as u8 * 4,
        cr: (high >> 6 & 15) as u8 * 16,
        cb: (high >> 2 & 15) as u8 * 16,
        t: (high & 3) as u8 * 64,
    }
    .shown()
}
