ghost use Rattle.std.specs.Prelude.{◌≡◌, length};
ghost use Rattle.cue_list.specs.Sound.{IsSoundScript};

use crate::epoch::Epoch;
use indexed_picture::Indexed;
use std::alloc::Global;
use std::marker::Model;
use sub_base::Items;

/// A cue script: the subtitles of a programme. Its values pass every test of a script's records, so
/// whoever has one tests nothing again.
#[derive(Drop)]
pub struct Script {
    /// The tick from which packets are sent: that of slot 0.
    pub origin: u64,
    /// The width of the display, in pixels.
    pub width: u16,
    /// The height of the display, in pixels.
    pub height: u16,
    /// The ticks after which a page that stays is sent again: whole seconds, 1 to 60.
    pub refresh: u64,
    /// The epochs, in order of their starts.
    pub epochs: Items<Epoch>,
    /// The pictures of the script's picture and cue records, in the order of the records.
    pub pictures: Pictures,
    /// What each script keeps to, as its records passed their tests.
    pub ghost sound: { ∥ IsSoundScript origin width height refresh epochs pictures ∥₁ },
}

/// The pictures of a script, in order. Contracts see the list of them.
#[derive(Drop)]
pub struct Pictures {
    pictures: Vec<Indexed>,
}

impl Model for Pictures {
    ghost use Rattle.std.specs.Prelude.{List};
    ghost use Rattle.sub_base.specs.Picture.{Picture};

    ghost Value = { List Picture };

    ghost view = { λ list. list.pictures.items };
}

impl Pictures {
    /// The list of these pictures. Takes no memory.
    pub fn new(_alloc: Global, pictures: Vec<Indexed>) -> Pictures
        ensures { result ≡ pictures.items }
    {
        Pictures { pictures }
    }

    /// The pictures in order.
    pub fn as_slice(&self) -> &[Indexed]
        ensures { result.now ≡ self.now }
    {
        &self.pictures
    }

    /// How many pictures there are.
    pub fn len(&self) -> usize
        ensures { result ≡ length self.now }
    {
        self.pictures.len()
    }

    /// The pictures, for a list that goes on.
    pub fn into_vec(self) -> Vec<Indexed>
        ensures { result.items ≡ self }
    {
        self.pictures
    }
}
