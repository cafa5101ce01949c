//! The colours of all CLUTs, kept ready: a row of a region needs no table of its own.

ghost use Rattle.std.specs.Prelude.{◌≡◌, ◌+◌, ◌<◌, ◌%◌, ◌*◌, [], length, slice_set, slice_range, IfOk};
ghost use Rattle.sub_base.specs.Depth.{code_count};
ghost use Rattle.page_core.specs.Private.Inks.{AreDefaults, default_ink as default_of_index, ink_count};
ghost use Rattle.page_core.specs.Memory.{AreInks, ink_place as place_of, first_of_table as first_of, colours_of_clut};

use std::alloc::Global;
use std::marker::Model;
use sub_base::{CLEAR, Colour, Depth, NoMemory, default_colour};

/// How many entries the three tables of a CLUT have together.
const CLUT_SIZE: usize = 276;

/// How many entries the tables of all CLUTs have.
pub(crate) const INKS: usize = 256 * CLUT_SIZE;

/// The colours of all CLUTs. Contracts see them as a list, the three tables of a CLUT one after
/// another.
#[derive(Drop)]
pub(crate) struct Inks {
    colours: Vec<Colour>,
}

impl Model for Inks {
    ghost use Rattle.std.specs.Prelude.{◌≡◌, List, length};
    ghost use Rattle.sub_base.specs.declared.colour.Colour.{Colour};
    ghost use Rattle.page_core.specs.Private.Inks.{ink_count};

    ghost Value = { List Colour };

    ghost view = { λ inks. inks.colours.items };

    ghost invariant = { λ inks. length inks.colours.items ≡ ink_count };
}

impl Inks {
    /// The default colours of all CLUTs. All memory is taken here.
    pub fn make(alloc: Global) -> Result<Inks, NoMemory>
        ensures { IfOk result (AreInks []) }
    {
        let mut colours = clear_colours(alloc, INKS)?;
        fill_defaults(&mut colours);
        Ok(Inks { colours })
    }

    /// Gives an entry of a CLUT a colour.
    pub fn set(&mut self, clut: u8, depth: Depth, entry: u8, colour: Colour)
        ensures set { self.new ≡ slice_set self.old (place_of clut depth entry) colour }
    {
        let index = ink_place(clut, depth, entry);
        self.colours[index] = colour;
    }

    /// The table for codes of a depth of a CLUT.
    pub fn table(&self, clut: u8, depth: Depth) -> &[Colour]
        ensures count { length result.now ≡ code_count depth }
        ensures colours { result.now
            ≡ slice_range self.now (place_of clut depth 0)
            (place_of clut depth 0 + code_count depth) }
    {
        let start = ink_place(clut, depth, 0);
        &self.colours[start..start + usize::from(depth.code_count())]
    }
}

fn clear_colours(alloc: Global, count: usize) -> Result<Vec<Colour>, NoMemory>
    ensures { IfOk result (λ colours. length colours.items ≡ count) }
{
    Ok(vec![in alloc; CLEAR; count]?)
}

fn fill_defaults(colours: &mut Vec<Colour>)
    ensures count { length colours.new.items ≡ length colours.old.items }
    ensures defaults { AreDefaults colours.new.items }
{
    fill_with_defaults(colours.as_mut_slice());
}

fn fill_with_defaults(colours: &mut [Colour])
    ensures { AreDefaults colours.new }
{
    for index in 0..colours.len() {
        colours[index] = default_ink(index % CLUT_SIZE);
    }
}

// The default colour at an index of a CLUT.
fn default_ink(index: usize) -> Colour
    requires { index < colours_of_clut }
    ensures { result ≡ default_of_index index }
{
    let four = first_of_table(Depth::Four);
    let eight = first_of_table(Depth::Eight);
    if index < four {
        default_colour(Depth::Two, index as u8)
    } else if index < eight {
        default_colour(Depth::Four, (index - four) as u8)
    } else {
        default_colour(Depth::Eight, (index - eight) as u8)
    }
}

// Where the table of a depth begins in a CLUT.
fn first_of_table(depth: Depth) -> usize
    ensures { result ≡ first_of depth }
{
    match depth {
        Depth::Two => 0,
        Depth::Four => 4,
        Depth::Eight => 20,
    }
}

/// The index of an entry of a CLUT among those of all CLUTs.
pub(crate) fn ink_place(clut: u8, depth: Depth, entry: u8) -> usize
    ensures place { result ≡ place_of clut depth entry }
    ensures inside { result < ink_count }
{
    usize::from(clut) * CLUT_SIZE + first_of_table(depth) + usize::from(entry)
}
