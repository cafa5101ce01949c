ghost use Rattle.std.specs.Prelude.{◌≡◌, ℕ, ◌+◌, ◌*◌, ◌<◌, ◌≤◌, ◌++◌, [], List, length, slice_get, slice_index_or, IfOk, IfSome, IsSome, OnOk, OnErr, IsTrue, ◌↔◌, All, Any, Contains};
ghost use Rattle.stream_syntax.specs.PixelBlocks.{IsNoDeeper};
ghost use Rattle.stream_syntax.specs.FieldBlocks.{AreFieldBlocks, AreFieldSizes, DrawsPicture};
ghost use Rattle.set_coder.specs.KeptBlocks.{IsCoded, AreCoded, CanBeKept, FitsLargestBuffer, IsOf, IsPictureKept, IsCueKept, AreKept, place_in, place_of, AreLedTo};
ghost use Rattle.set_coder.specs.GrownBlocks.{AreBlocksOf};
ghost use Rattle.set_coder.specs.Private.Keeping.{StaysInFront, with_place, FitsBuffer};

use crate::coded_picture::{BlockLookup, CodedPicture, KeptBlocks, Slots};
use cue_list::{Cue, Epoch, Script, region_with};
use indexed_picture::Indexed;
use picture_fields::{FieldLengths, FieldSizes, field_sizes, write_fields};
use pixel_codes::is_no_deeper;
use std::alloc::Global;
use sub_base::{Depth, LARGEST_BUFFER, NoMemory};

impl KeptBlocks {
    /// Codes the pictures that the cues of a script show. Blocks of more bytes than the largest
    /// coded data buffer has are not kept: a set with them is refused.
    pub fn of_script(alloc: Global, script: &Script) -> Result<KeptBlocks, NoMemory>
        ensures coded { IfOk result (λ kept. AreCoded script.now.pictures kept.coded.items) }
        ensures kept { IfOk result (λ kept. AreKept script.now kept.coded.items) }
        ensures led { IfOk result (λ kept. AreLedTo kept.slots.items kept.coded.items) }
        ensures small { IfOk result (λ kept. All FitsLargestBuffer kept.coded.items) }
    {
        let mut kept = KeptBlocks::none(alloc);
        kept.grow(script)?;
        Ok(kept)
    }

    /// Keeps the blocks of the pictures that the cues of an epoch show.
    #[tactic(auto, using(crate::proofs::GrownBlockLaws::stays_here))]
    pub(crate) fn keep_epoch(&mut self, pictures: &[Indexed], epoch: &Epoch) -> Result<(), NoMemory>
        requires { AreBlocksOf pictures.now self.old }
        ensures blocks { AreBlocksOf pictures.now self.new }
        ensures kept { OnOk result
            (All (IsCueKept pictures.now self.new.coded.items epoch.now) epoch.now.cues) }
        ensures front { StaysInFront self.old.coded.items self.new.coded.items }
    {
        for cue in epoch.cues.as_slice() {
            self.keep_cue(pictures, epoch, cue)?;
        }
        Ok(())
    }

    /// Keeps the blocks of the picture that a cue shows, for the depth of its region.
    #[tactic(auto, using(crate::proofs::GrownBlockLaws::stays_here))]
    fn keep_cue(&mut self, pictures: &[Indexed], epoch: &Epoch, cue: &Cue) -> Result<(), NoMemory>
        requires { AreBlocksOf pictures.now self.old }
        ensures blocks { AreBlocksOf pictures.now self.new }
        ensures kept { OnOk result
            (IsCueKept pictures.now self.new.coded.items epoch.now cue.now) }
        ensures front { StaysInFront self.old.coded.items self.new.coded.items }
    {
        match region_with(epoch.regions.as_slice(), cue.region) {
            Some(region) => self.keep(pictures, cue.picture, region.depth),
            None => Ok(()),
        }
    }

    /// Keeps the blocks of a picture, where they are not kept yet.
    #[tactic(auto, using(crate::proofs::GrownBlockLaws::stays_here))]
    fn keep(&mut self, pictures: &[Indexed], number: u32, region: Depth) -> Result<(), NoMemory>
        requires { AreBlocksOf pictures.now self.old }
        ensures blocks { AreBlocksOf pictures.now self.new }
        ensures kept { OnOk result (IsPictureKept pictures.now self.new.coded.items number region) }
        ensures front { StaysInFront self.old.coded.items self.new.coded.items }
    {
        let place = number as usize;
        // No script has such a picture. Tested here, that need not be a premise.
        if place >= pictures.len() {
            return Ok(());
        }
        let picture = &pictures[place];
        if self.holds(number, region) || !can_be_kept(picture, region) {
            return Ok(());
        }
        self.add(pictures, picture, number, region)
    }

    /// Codes a picture and keeps its blocks.
    #[tactic(auto, using(crate::proofs::GrownBlockLaws::stays_here))]
    fn add(
        &mut self,
        pictures: &[Indexed],
        picture: &Indexed,
        number: u32,
        region: Depth,
    ) -> Result<(), NoMemory>
        requires blocks { AreBlocksOf pictures.now self.old }
        requires picture { slice_get pictures.now number ≡ Some picture.now }
        requires shallow { IsNoDeeper picture.now.depth region }
        requires fits { FitsBuffer picture.now region }
        requires fresh { Any (IsOf number region) self.old.coded.items → ⊥ }
        ensures blocks { AreBlocksOf pictures.now self.new }
        ensures kept { OnOk result (Any (IsOf number region) self.new.coded.items) }
        ensures front { StaysInFront self.old.coded.items self.new.coded.items }
    {
        let coded = code(*self.coded.allocator(), picture, number, region)?;
        let last = self.coded.len();
        self.coded.push(coded)?;
        self.lead(number, region, last);
        Ok(())
    }

    /// Lets the slot of a picture lead to its blocks.
    fn lead(&mut self, number: u32, region: Depth, at: usize)
        requires { number < length self.old.slots.items }
        ensures coded { self.new.coded ≡ self.old.coded }
        ensures each { length self.new.slots.items ≡ length self.old.slots.items }
        ensures here { place_of self.new.slots.items number region ≡ Some at }
        ensures others { (other : ℕ) (depth : Depth)
            → ((other ≡ number) × (depth ≡ region) → ⊥)
            → place_of self.new.slots.items other depth
            ≡ place_of self.old.slots.items other depth }
    {
        self.slots.as_mut_slice()[number as usize].set(region, at);
    }

    /// Whether blocks of the picture of that number are kept for a region of that depth.
    fn holds(&self, number: u32, region: Depth) -> bool
        requires { AreLedTo self.now.slots.items self.now.coded.items }
        ensures { IsTrue result ↔ Any (IsOf number region) self.now.coded.items }
    {
        self.lookup().led_to(number, region).is_some()
    }

    pub(crate) fn lookup(&self) -> BlockLookup<'_>
        ensures coded { result.coded.now ≡ self.now.coded.items }
        ensures slots { result.slots.now ≡ self.now.slots.items }
    {
        BlockLookup {
            slots: self.slots.as_slice(),
            coded: self.coded.as_slice(),
        }
    }
}

impl Slots {
    pub(crate) fn none() -> Slots {
        Slots {
            two: None,
            four: None,
            eight: None,
        }
    }

    fn of(&self, region: Depth) -> Option<usize>
        ensures { result ≡ place_in self.now region }
    {
        match region {
            Depth::Two => self.two,
            Depth::Four => self.four,
            Depth::Eight => self.eight,
        }
    }

    fn set(&mut self, region: Depth, place: usize)
        ensures { self.new ≡ with_place self.old region place }
    {
        match region {
            Depth::Two => self.two = Some(place),
            Depth::Four => self.four = Some(place),
            Depth::Eight => self.eight = Some(place),
        }
    }
}

/// Whether a picture can be coded for a region of a depth, and has not too many bytes then.
fn can_be_kept(picture: &Indexed, region: Depth) -> bool
    ensures shallow { IsTrue result → IsNoDeeper picture.now.depth region }
    ensures fits { IsTrue result → FitsBuffer picture.now region }
    ensures all { CanBeKept picture.now region → IsTrue result }
{
    if !is_no_deeper(picture.depth(), region) {
        return false;
    }
    // Twice the most bytes: three a pixel, ten a row, and those of two tables and an empty field.
    let row = 3 * u64::from(picture.width()) + 10;
    if 70 + u64::from(picture.height()) * row <= 2 * LARGEST_BUFFER {
        return true;
    }
    // Measured before it is coded, so that no memory is taken for what no buffer holds.
    let sizes = field_sizes(picture, region);
    sizes.top + sizes.bottom <= LARGEST_BUFFER
}

/// Codes a picture for a region of a depth.
fn code(
    alloc: Global,
    picture: &Indexed,
    number: u32,
    region: Depth,
) -> Result<CodedPicture, NoMemory>
    requires shallow { IsNoDeeper picture.now.depth region }
    requires fits { FitsBuffer picture.now region }
    ensures coded { IfOk result (IsCoded picture.now region) }
    ensures small { IfOk result FitsLargestBuffer }
    ensures number { IfOk result (λ coded. coded.number ≡ number) }
    ensures region { IfOk result (λ coded. coded.region ≡ region) }
{
    let mut blocks = Vec::new(alloc);
    let lengths = write_fields(picture, region, &mut blocks)?;
    Ok(CodedPicture {
        number,
        region,
        lengths,
        blocks,
    })
}

impl<'a> BlockLookup<'a> {
    /// Of a script of which nothing is kept.
    pub(crate) fn nothing() -> BlockLookup<'a>
        ensures { result.coded.now ≡ [] }
    {
        BlockLookup {
            slots: &[],
            coded: &[],
        }
    }

    /// Where the slots of the picture of that number say that its blocks stand.
    fn place_of(&self, number: u32, region: Depth) -> Option<usize>
        ensures { result ≡ place_of self.now.slots.now number region }
    {
        let number = number as usize;
        if number >= self.slots.len() {
            return None;
        }
        self.slots[number].of(region)
    }

    /// The blocks of the picture of that number for a region of that depth, where its slot leads to
    /// them.
    fn led_to(&self, number: u32, region: Depth) -> Option<&'a CodedPicture>
        ensures named { IfSome result (λ coded. IsOf number region coded.now) }
        ensures among { IfSome result (λ coded. Contains self.now.coded.now coded.now) }
        ensures found { AreLedTo self.now.slots.now self.now.coded.now
            → Any (IsOf number region) self.now.coded.now → IsSome result }
    {
        let at = self.place_of(number, region)?;
        if at >= self.coded.len() {
            return None;
        }
        let coded = &self.coded[at];
        // Slots are a hint: what they lead to is looked at before it is used.
        if coded.number != number || coded.region != region {
            return None;
        }
        Some(coded)
    }

    /// The blocks of a picture, where they are kept. That they are of these pictures is asked by
    /// the contract alone.
    pub(crate) fn find(
        &self,
        _pictures: &[Indexed],
        _picture: &Indexed,
        number: u32,
        region: Depth,
    ) -> Option<&'a CodedPicture>
        requires kept { AreCoded _pictures.now self.now.coded.now }
        requires picture { _picture.now ≡ slice_index_or _pictures.now number _picture.now }
        ensures coded { IfSome result (λ coded. IsCoded _picture.now region coded.now) }
        ensures found { AreLedTo self.now.slots.now self.now.coded.now
            → Any (IsOf number region) self.now.coded.now → IsSome result }
    {
        self.led_to(number, region)
    }

    /// What `write_fields` does for a picture, from the blocks that are kept where they are. After
    /// want of memory `out` is as before.
    pub(crate) fn write_fields(
        &self,
        pictures: &[Indexed],
        picture: &Indexed,
        number: u32,
        region: Depth,
        out: &mut Vec<u8>,
    ) -> Result<FieldLengths, NoMemory>
        requires kept { AreCoded pictures.now self.now.coded.now }
        requires picture { picture.now ≡ slice_index_or pictures.now number picture.now }
        requires no_deeper { IsNoDeeper picture.now.depth region }
        ensures blocks { IfOk result (λ lengths. (top : List ℕ) × (bottom : List ℕ)
            × (out.new.items ≡ out.old.items ++ (top ++ bottom))
            × (lengths.top ≡ length top) × (lengths.bottom ≡ length bottom)
            × AreFieldBlocks picture.now region top bottom) }
        ensures sizes { IfOk result
            (λ lengths. AreFieldSizes picture.now region lengths.top lengths.bottom) }
        ensures only_sizes { IfOk result
            (λ lengths. (top : ℕ) (bottom : ℕ) → AreFieldSizes picture.now region top bottom
            → (lengths.top ≡ top) × (lengths.bottom ≡ bottom)) }
        ensures drawn { IfOk result (λ lengths. (top : List ℕ) × (bottom : List ℕ)
            × (out.new.items ≡ out.old.items ++ (top ++ bottom))
            × (lengths.top ≡ length top) × (lengths.bottom ≡ length bottom)
            × DrawsPicture picture.now region top bottom) }
        ensures kept { OnErr result (out.new.items ≡ out.old.items) }
    {
        match self.find(pictures, picture, number, region) {
            Some(coded) => {
                out.extend_from_slice(coded.blocks.as_slice())?;
                Ok(coded.lengths)
            }
            None => write_fields(picture, region, out),
        }
    }

    /// What `field_sizes` says of a picture, from the blocks that are kept where they are.
    pub(crate) fn field_sizes(
        &self,
        pictures: &[Indexed],
        picture: &Indexed,
        number: u32,
        region: Depth,
    ) -> FieldSizes
        requires kept { AreCoded pictures.now self.now.coded.now }
        requires picture { picture.now ≡ slice_index_or pictures.now number picture.now }
        ensures sizes { AreFieldSizes picture.now region result.top result.bottom }
        ensures room { result.top + result.bottom
            ≤ 35 + picture.now.height * (3 * picture.now.width + 10) }
    {
        match self.find(pictures, picture, number, region) {
            Some(coded) => sizes_of(coded.lengths),
            None => field_sizes(picture, region),
        }
    }
}

/// The same lengths.
fn sizes_of(lengths: FieldLengths) -> FieldSizes
    ensures top { result.top ≡ lengths.top }
    ensures bottom { result.bottom ≡ lengths.bottom }
{
    FieldSizes {
        top: u64::from(lengths.top),
        bottom: u64::from(lengths.bottom),
    }
}
