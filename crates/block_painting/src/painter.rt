//! A pixel data block painted from its first sub-block to its last.

ghost use Rattle.std.specs.Prelude.{◌≡◌, ◌<◌, ◌≤◌, List, [], length, IfSome};
ghost use Rattle.sub_base.specs.declared.depth.Depth.TheVariants.{Eight};
ghost use Rattle.stream_syntax.specs.PixelBlocks.{Part, AreParts, runs_after, IsNoDeeper};
ghost use Rattle.decoder_model.specs.Faults.{too_deep_at};
ghost use Rattle.decoder_model.specs.Pixels.{code_by_field};
ghost use Rattle.pixel_codes.specs.declared.part.Head.TheVariants.{PixelString};
ghost use Rattle.pixel_store.specs.Regions.{IsPlaced, KeepsOthers, region_at};
ghost use Rattle.block_painting.specs.declared.painter.Step.TheVariants.{Passed};
ghost use Rattle.block_painting.specs.Writing.{IsWritten};
ghost use Rattle.block_painting.specs.Private.Heads.{Begins};
ghost use Rattle.block_painting.specs.Private.Pens.{stand_of};
ghost use Rattle.block_painting.specs.Private.Walks.{IsTarget, Steps};

use crate::pen::Pen;
use crate::place::FieldPlace;
use pixel_codes::{Head, head_of, is_no_deeper, size_of_table};
use pixel_store::{Slot, Store};
use string_painting::Brush;
use sub_base::Depth;

/// Where a block is painted: a region of the store, and the place of the field's lines in it.
#[derive(Clone, Copy)]
pub(crate) struct Target {
    pub(crate) slot: Slot,
    /// The depth of the region.
    pub(crate) region: Depth,
    pub(crate) place: FieldPlace,
}

/// What one step over a block did.
pub(crate) enum Step {
    /// It passed a sub-block.
    Passed,
    /// A string that is deeper than the region comes next.
    Deep,
    /// No sub-block comes next.
    Ended,
}

/// Paints the pixel data block of a field into a region of a depth (EN 300 743, pixel-data
/// sub-block and clause 7.2.5): each string goes into the row of its line, as far as the region has
/// the pixels. Answers the place, in bytes, of the first string that is deeper than the region, at
/// which painting ends.
pub fn paint_block(
    store: &mut Store,
    slot: Slot,
    place: FieldPlace,
    bytes: &[u8],
    region: Depth,
) -> Option<u32>
    requires short { length bytes.now ≤ 65535 }
    requires slot { IsPlaced store.old slot }
    requires depth { region ≡ (region_at store.old slot).depth }
    requires row { place.first_row < 2 }
    ensures others { KeepsOthers slot store.old store.new }
    ensures written { (parts : List Part) → AreParts region parts bytes.now
        → IsWritten slot (λ x y. code_by_field place.see_through place.listing place.first_row x y
        (runs_after region [] parts)) store.old store.new }
    // Whatever the bytes are.
    ensures within { IfSome result (λ at. at < length bytes.now) }
    ensures deep { (parts : List Part) → AreParts Eight parts bytes.now
        → result ≡ too_deep_at region parts }
{
    let mut pen = Pen::start(place, bytes);
    loop {
        let target = Target {
            slot,
            region,
            place,
        };
        match paint_part(store, target, &mut pen) {
            Step::Passed => {}
            Step::Deep => return Some((bytes.len() - pen.rest.len()) as u32),
            Step::Ended => return None,
        }
    }
}

/// Paints the next sub-block.
fn paint_part<'a>(store: &mut Store, target: Target, pen: &mut Pen<'a>) -> Step
    requires { IsTarget target store.old }
    ensures { Steps result target store.old (stand_of pen.old) store.new (stand_of pen.new) }
{
    let Some((first, body)) = pen.rest.split_first() else {
        return Step::Ended;
    };
    match head_of(*first) {
        None => Step::Ended,
        Some(Head::LineEnd) => {
            pen.end_line(target.place, body);
            Step::Passed
        }
        Some(Head::Table(kind)) => {
            let size = size_of_table(kind);
            if body.len() < size {
                return Step::Ended;
            }
            let (table, after) = body.split_at(size);
            pen.pass_table(kind, table, after);
            Step::Passed
        }
        Some(Head::PixelString(depth)) => {
            if !is_no_deeper(depth, target.region) {
                return Step::Deep;
            }
            paint_body(store, target, pen, depth, body);
            Step::Passed
        }
    }
}

/// Paints the string that begins the bytes behind its type byte.
fn paint_body<'a>(
    store: &mut Store,
    target: Target,
    pen: &mut Pen<'a>,
    depth: Depth,
    body: &'a [u8],
)
    requires target { IsTarget target store.old }
    requires begins { Begins (PixelString depth) pen.old.rest.now body.now }
    requires fits { IsNoDeeper depth target.region }
    ensures { Steps Passed target store.old (stand_of pen.old) store.new (stand_of pen.new) }
{
    let brush = Brush {
        string: depth,
        region: target.region,
        see_through: target.place.see_through,
    };
    let table = pen.tables.between(depth, target.region);
    let told = store.paint_string(target.slot, pen.x, pen.row, body, brush, table);
    pen.pass_string(body, told.size, told.x);
}
