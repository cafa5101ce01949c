ghost use Rattle.std.specs.Prelude.{◌≡◌, [], IfOk, OnOk, OnErr};
ghost use Rattle.bitmap_font.specs.Font.{FontValue};
ghost use Rattle.cue_list.specs.Past.{looking_back};
ghost use Rattle.cue_list.specs.Private.State.{IsReader, past_of};

use crate::copies::{epochs_copy, last_copy};
use crate::epoch::Epoch;
use crate::names::Names;
use crate::ticks::Ticks;
use indexed_picture::Indexed;
use std::alloc::Global;
use std::mem;
use sub_base::NoMemory;

/// What is kept of the records of a script so far.
#[derive(Drop)]
pub(crate) struct Reader {
    /// How many records were taken.
    pub(crate) rows: u64,
    /// The tick of slot 0, 0 before the first record.
    pub(crate) origin: u64,
    /// The width of the display, 0 before the second record.
    pub(crate) width: u16,
    /// The height of the display, 0 before the second record.
    pub(crate) height: u16,
    /// The seconds of a refresh, 0 before the third record.
    pub(crate) seconds: u64,
    /// The epochs before the last one.
    pub(crate) ended: Vec<Epoch>,
    /// The last epoch.
    pub(crate) epoch: Option<Epoch>,
    /// How many colours, pictures with a name, and places and cues there are.
    pub(crate) colours: u32,
    pub(crate) named: u32,
    pub(crate) cues: u32,
    /// The pictures of picture and cue records, in order.
    pub(crate) pictures: Vec<Indexed>,
    /// How many codes the pictures have.
    pub(crate) codes: u64,
    /// The ticks that were named.
    pub(crate) ticks: Ticks,
    /// The last picture of each name.
    pub(crate) names: Names,
}

impl Reader {
    /// Before the first record.
    pub(crate) fn new(alloc: Global) -> Reader
        ensures reader { IsReader result }
        ensures rows { result.rows ≡ 0 }
        ensures pictures { result.pictures.items ≡ [] }
        ensures past { (font : FontValue) → past_of result ≡ looking_back font [] }
    {
        Reader {
            rows: 0,
            origin: 0,
            width: 0,
            height: 0,
            seconds: 0,
            ended: Vec::new(alloc),
            epoch: None,
            colours: 0,
            named: 0,
            cues: 0,
            pictures: Vec::new(alloc),
            codes: 0,
            ticks: Ticks::new(alloc),
            names: Names::new(alloc),
        }
    }

    /// The same, in memory of its own, but for the pictures: they are moved to it.
    pub(crate) fn copy(&mut self, alloc: Global) -> Result<Reader, NoMemory>
        requires reader { IsReader self.old }
        ensures same { IfOk result (λ copy. past_of copy ≡ past_of self.old) }
        ensures reader { IfOk result (λ copy. IsReader copy) }
        ensures pictures { IfOk result (λ copy. copy.pictures ≡ self.old.pictures) }
        ensures left { OnOk result
            (self.new ≡ record self.old { pictures = self.new.pictures }) }
        ensures none { OnOk result (self.new.pictures.items ≡ []) }
        ensures still { OnOk result (IsReader self.new) }
        ensures kept { OnErr result (self.new ≡ self.old) }
    {
        let mut copy = Reader {
            rows: self.rows,
            origin: self.origin,
            width: self.width,
            height: self.height,
            seconds: self.seconds,
            ended: epochs_copy(alloc, self.ended.as_slice())?,
            epoch: last_copy(alloc, &self.epoch)?,
            colours: self.colours,
            named: self.named,
            cues: self.cues,
            pictures: Vec::new(alloc),
            codes: self.codes,
            ticks: self.ticks.copy()?,
            names: self.names.copy()?,
        };
        mem::swap(&mut self.pictures, &mut copy.pictures);
        Ok(copy)
    }
}
