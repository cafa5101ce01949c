//! The CLUT segments of a set (EN 300 743, clause 7.2.4).

ghost use Rattle.std.specs.Prelude.{◌≡◌, ◌&&◌, ◌∷◌, ◌++◌, [], ◌<◌, List, false, filter, nat_lt, reverse};
ghost use Rattle.std.specs.List.{list_any};
ghost use Rattle.sub_base.specs.Depth.{code_count};
ghost use Rattle.stream_syntax.specs.Segments.{of_clut};
ghost use Rattle.decoder_model.specs.Ink.{is_in_table};
ghost use Rattle.decoder_model.specs.Nodes.{is_same_entry};
ghost use Rattle.decoder_model.specs.Readings.{Content};
ghost use Rattle.decoder_model.specs.Taken.{has_new_version};
ghost use Rattle.segments.specs.Contents.{clut_value};
ghost use Rattle.page_core.specs.Private.ClutSteps.{AreColoured, HasColours, HasRoomFor, IsKeptBeside, IsKeptBut, SetsMore, in_depth, in_depths, with_entries_of, with_place, with_set};
ghost use Rattle.page_core.specs.Handed.{AreContents};
ghost use Rattle.page_core.specs.Private.Marks.{AreMarked};
ghost use Rattle.page_core.specs.Private.Nodes.{place_kept};
ghost use Rattle.page_core.specs.Private.Walks.{is_clut};

use crate::composition::CompositionMemory;
use crate::inks::Inks;
use crate::marks::{Mark, Marks};
use crate::node::TablePlace;
use crate::walking::next_clut;
use segments::ClutSeg;
use stream_syntax::ClutEntry;
use sub_base::{Colour, Depth};

/// Takes the CLUT segments of a set, one after another.
pub(crate) fn take_cluts(
    composition: &mut CompositionMemory,
    inks: &mut Inks,
    marks: &mut Marks,
    bytes: &[u8],
)
    requires { AreColoured composition.old inks.old marks.old }
    ensures coloured { AreColoured composition.new inks.new marks.new }
    ensures keeps { IsKeptBeside composition.old composition.new }
    ensures taken { (older set : List Content) → HasColours older composition.old inks.old
        → AreContents set bytes.now
        → HasRoomFor (reverse (filter is_clut set) ++ older) composition.old
        → HasColours (reverse (filter is_clut set) ++ older) composition.new inks.new }
{
    let mut rest = bytes;
    while let Some(next) = next_clut(rest) {
        take_clut(composition, inks, marks, &next.segment);
        rest = next.rest;
    }
}

// Takes a CLUT segment, unless its version is the one that is known.
fn take_clut(
    composition: &mut CompositionMemory,
    inks: &mut Inks,
    marks: &mut Marks,
    clut: &ClutSeg<'_>,
)
    requires { AreColoured composition.old inks.old marks.old }
    ensures coloured { AreColoured composition.new inks.new marks.new }
    ensures keeps { IsKeptBeside composition.old composition.new }
    ensures taken { (earlier : List Content) (content : Content)
        → of_clut (clut_value clut.now) ≡ content.value
        → HasColours earlier composition.old inks.old
        → HasRoomFor (content ∷ earlier) composition.old
        → HasColours (content ∷ earlier) composition.new inks.new }
{
    if is_new_version(clut.version, composition.clut_version(clut.clut)) {
        composition.set_clut(clut.clut, clut.version);
        set_entries(composition, inks, marks, clut);
    }
}

/// Whether no version is known, or another one.
pub(crate) fn is_new_version(version: u8, known: Option<u8>) -> bool
    ensures { result ≡ has_new_version version known }
{
    match known {
        None => true,
        Some(known) => known != version,
    }
}

// Sets the entries of a CLUT segment, one after another.
fn set_entries(
    composition: &mut CompositionMemory,
    inks: &mut Inks,
    marks: &mut Marks,
    clut: &ClutSeg<'_>,
)
    requires { AreColoured composition.old inks.old marks.old }
    ensures coloured { AreColoured composition.new inks.new marks.new }
    ensures keeps { IsKeptBut composition.old composition.new }
    ensures set { SetsMore (with_entries_of clut.now.clut (clut_value clut.now).entries)
        composition.old inks.old composition.new inks.new }
{
    let mut items = clut.items();
    while let Some(entry) = items.next() {
        set_entry(composition, inks, marks, clut.clut, entry);
    }
}

// Sets an entry in each table for which it is flagged.
fn set_entry(
    composition: &mut CompositionMemory,
    inks: &mut Inks,
    marks: &mut Marks,
    clut: u8,
    entry: ClutEntry,
)
    requires { AreColoured composition.old inks.old marks.old }
    ensures coloured { AreColoured composition.new inks.new marks.new }
    ensures keeps { IsKeptBut composition.old composition.new }
    ensures set { SetsMore (in_depths clut entry) composition.old inks.old composition.new
        inks.new }
{
    set_in_depth(composition, inks, marks, clut, entry, Depth::Two);
    set_in_depth(composition, inks, marks, clut, entry, Depth::Four);
    set_in_depth(composition, inks, marks, clut, entry, Depth::Eight);
}

// Sets an entry in the table for codes of a depth, where it is flagged for it and the table has it.
fn set_in_depth(
    composition: &mut CompositionMemory,
    inks: &mut Inks,
    marks: &mut Marks,
    clut: u8,
    entry: ClutEntry,
    depth: Depth,
)
    requires { AreColoured composition.old inks.old marks.old }
    ensures coloured { AreColoured composition.new inks.new marks.new }
    ensures keeps { IsKeptBut composition.old composition.new }
    ensures set { SetsMore (in_depth clut entry depth) composition.old inks.old composition.new
        inks.new }
{
    if is_in_depth(entry, depth) {
        let place = TablePlace {
            clut,
            depth,
            entry: entry.entry,
        };
        set_place(composition, inks, marks, place, entry.colour);
    }
}

/// Whether an entry is one of the table for codes of a depth.
pub(crate) fn is_in_depth(entry: ClutEntry, depth: Depth) -> bool
    ensures { result ≡ (is_in_table depth entry && nat_lt entry.entry (code_count depth)) }
{
    is_flagged(entry, depth) && u16::from(entry.entry) < depth.code_count()
}

fn is_flagged(entry: ClutEntry, depth: Depth) -> bool
    ensures { result ≡ is_in_table depth entry }
{
    match depth {
        Depth::Two => entry.two,
        Depth::Four => entry.four,
        Depth::Eight => entry.eight,
    }
}

// Gives an entry of a table a colour. It is left out where it needs a node and none is free.
fn set_place(
    composition: &mut CompositionMemory,
    inks: &mut Inks,
    marks: &mut Marks,
    place: TablePlace,
    colour: Colour,
)
    requires coloured { AreColoured composition.old inks.old marks.old }
    requires clut { place.clut < 256 }
    requires table { place.entry < code_count place.depth }
    ensures coloured { AreColoured composition.new inks.new marks.new }
    ensures keeps { IsKeptBut composition.old composition.new }
    ensures set { SetsMore (with_place (place_kept place) colour) composition.old inks.old
        composition.new inks.new }
{
    if add_entry(composition, marks, place) {
        inks.set(place.clut, place.depth, place.entry, colour);
    }
}

// An entry of a table is among those that are set, unless it needs a node and none is free.
fn add_entry(composition: &mut CompositionMemory, marks: &mut Marks, place: TablePlace) -> bool
    requires marks { AreMarked composition.old.set_entries [] marks.old }
    requires clut { place.clut < 256 }
    requires table { place.entry < code_count place.depth }
    ensures marks { AreMarked composition.new.set_entries [] marks.new }
    ensures added { composition.new ≡ with_set (place_kept place) composition.old }
    ensures set { result
        ≡ list_any (is_same_entry (place_kept place)) composition.new.set_entries }
{
    match marks.at(place) {
        Mark::Set => true,
        _ => push_entry(composition, marks, place),
    }
}

// One more entry of a table is set, where a node is free for it.
fn push_entry(composition: &mut CompositionMemory, marks: &mut Marks, place: TablePlace) -> bool
    requires marks { AreMarked composition.old.set_entries [] marks.old }
    requires new { list_any (is_same_entry (place_kept place)) composition.old.set_entries
        ≡ false }
    requires clut { place.clut < 256 }
    requires table { place.entry < code_count place.depth }
    ensures marks { AreMarked composition.new.set_entries [] marks.new }
    ensures added { composition.new ≡ with_set (place_kept place) composition.old }
    ensures set { result
        ≡ list_any (is_same_entry (place_kept place)) composition.new.set_entries }
{
    match composition.push_colour(place) {
        None => false,
        Some(_) => {
            marks.put(place, Mark::Set);
            true
        }
    }
}
