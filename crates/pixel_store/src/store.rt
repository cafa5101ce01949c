ghost use Rattle.std.specs.Prelude.{◌≡◌, ℕ, ◌+◌, ◌*◌, ◌^◌, ◌<◌, ◌≤◌, List, [], ◌++◌, length, map, sum_by, IfOk, IfErr, IsOk};
ghost use Rattle.sub_base.specs.Depth.{code_count, pixel_bytes};
ghost use Rattle.stream_syntax.specs.PixelCodes.{Code, IsString};
ghost use Rattle.string_painting.specs.Painting.{IsMapTable, laid_over, pixels_of_codes};
ghost use Rattle.pixel_store.specs.Regions.{IsPlaced, region_at, code_of, no_regions, need_in, with_region};
ghost use Rattle.pixel_store.specs.Regions.{IsOver, PlacesOne, KeepsOthers, IsFilled};
ghost use Rattle.pixel_store.specs.Regions.{IsRunPainted, IsStringPainted, IsPackedRow};
ghost use Rattle.pixel_store.specs.Calls.{StoreCall, Place, Fill, PaintRun, PaintString};
ghost use Rattle.pixel_store.specs.Calls.{last_write, shown_code, IsAfter, FollowsCall};
ghost use Rattle.pixel_store.specs.Private.Stores.{extent_at as extent_of};

use crate::extent::{Extent, clear, code_at, fill_rows, packed_row, paint_row, size};
use crate::string_rows::paint_row_string;
use std::alloc::Global;
use std::marker::Model;
use string_painting::{Brush, Painted};
use sub_base::{Depth, NoMemory, zeros};
use thiserror::Error;

/// Names a region that is placed in a store. It is seen as the index of the region.
#[derive(Clone, Copy, Debug, PartialEq, Eq)]
pub struct Slot {
    index: usize,
}

impl Model for Slot {
    ghost use Rattle.std.specs.Prelude.{ℕ};

    ghost Value = { ℕ };

    ghost view = { λ slot. slot.index };

    ghost inverse = { λ index. record { index = index } };
}

/// A region needs that many bytes, and fewer are free.
#[derive(Clone, Copy, Debug, PartialEq, Eq, Error)]
#[error("a region needs {need} bytes, and {free} are free")]
pub struct StoreFull {
    /// The bytes of the region.
    pub need: u64,
    /// The bytes that are free.
    pub free: u64,
}

/// Regions of packed pixels, the first pixel of a byte in its highest bits. They stay where they
/// are placed until all are dropped at once.
#[derive(Drop)]
pub struct Store {
    bytes: Vec<u8>,
    used: usize,
    extents: Vec<Extent>,
}

impl Model for Store {
    ghost use Rattle.std.specs.Prelude.{◌≤◌, vec_capacity};
    ghost use Rattle.pixel_store.specs.Regions.{Regions};
    ghost use Rattle.pixel_store.specs.Private.Stores.{regions_in, IsStore};

    ghost Value = { Regions };

    ghost view = { λ s. regions_in s.bytes.items s.used s.extents.items };

    ghost invariant = { λ s. IsStore s.bytes.items s.used s.extents.items × (256 ≤ vec_capacity s.extents) };
}

/// At most so many regions are placed at a time: region ids have 8 bits (EN 300 743, region
/// composition segment).
const MOST_REGIONS: usize = 256;

impl Store {
    /// A store of that many bytes, without a region. All memory is taken here.
    pub fn make(alloc: Global, bytes: u64) -> Result<Store, NoMemory>
        ensures empty { IfOk result (λ store. store ≡ no_regions bytes) }
        ensures after { IfOk result (IsAfter []) }
    {
        Ok(Store {
            bytes: zeros(alloc, bytes as usize)?,
            used: 0,
            extents: Vec::with_capacity(alloc, MOST_REGIONS)?,
        })
    }

    /// Places a region of that width and height in pixels, whose codes are all 0. Each row takes
    /// whole bytes. After a refusal the store is as it was.
    pub fn place(&mut self, width: u16, height: u16, depth: Depth) -> Result<Slot, StoreFull>
        requires few { length self.old.regions < 256 }
        requires wide { 1 ≤ width }
        requires high { 1 ≤ height }
        ensures placed { IfOk result
            (λ slot. self.new ≡ with_region width height depth self.old) }
        ensures slot { IfOk result (λ slot. PlacesOne width height depth slot self.old self.new) }
        ensures after { IfOk result
            (λ slot. FollowsCall (Place slot width height depth) self.old self.new) }
        ensures succeeds { pixel_bytes width height depth ≤ self.old.free → IsOk result }
        ensures full { IfErr result
            (λ full. IsOver width height depth self.old full.need full.free) }
        ensures unchanged { IfErr result (λ full. self.new ≡ self.old) }
    {
        let extent = Extent {
            offset: self.used,
            width,
            height,
            depth,
        };
        let need = size(extent);
        let free = self.bytes.len() - self.used;
        if free < need {
            return Err(StoreFull {
                need: need as u64,
                free: free as u64,
            });
        }
        let slot = Slot {
            index: self.extents.len(),
        };
        clear(&mut self.bytes, self.used, self.used + need);
        self.extents.push_reserved(extent);
        self.used += need;
        Ok(slot)
    }

    /// Gives every pixel of the region that code.
    pub fn fill(&mut self, slot: Slot, code: u8)
        requires slot { IsPlaced self.old slot }
        requires code { code < code_count (region_at self.old slot).depth }
        ensures others { KeepsOthers slot self.old self.new }
        ensures filled { IsFilled code (region_at self.new slot) }
        ensures after { FollowsCall (Fill slot code) self.old self.new }
    {
        let extent = extent_at(&self.extents, slot);
        fill_rows(&mut self.bytes, extent, code);
    }

    /// Gives `length` pixels of row y from column x on that code, as far as the region has them.
    pub fn paint_run(&mut self, slot: Slot, x: u32, y: u32, length: u32, code: u8)
        requires slot { IsPlaced self.old slot }
        requires code { code < code_count (region_at self.old slot).depth }
        ensures others { KeepsOthers slot self.old self.new }
        ensures painted { IsRunPainted x y length code (region_at self.old slot)
            (region_at self.new slot) }
        ensures after { FollowsCall (PaintRun slot x y length code) self.old self.new }
    {
        let extent = extent_at(&self.extents, slot);
        if y < u32::from(extent.height) {
            let width = usize::from(extent.width);
            let from = (x as usize).min(width);
            let to = (x as usize + length as usize).min(width);
            paint_row(&mut self.bytes, extent, y as u16, from, to, code);
        }
    }

    /// Paints the pixel code string that begins some bytes into row y, from column x on, as far as
    /// the region has the pixels (EN 300 743, 2-bit, 4-bit and 8-bit pixel code strings). `table`
    /// are the bytes of the map table between the two depths, as they stand in a block; where the
    /// depths are the same they are not looked at. Of bytes that begin no string the codes before
    /// their end may be painted.
    pub fn paint_string(
        &mut self,
        slot: Slot,
        x: u32,
        y: u32,
        string: &[u8],
        brush: Brush,
        table: &[u8],
    ) -> Painted
        requires slot { IsPlaced self.old slot }
        requires region { brush.region ≡ (region_at self.old slot).depth }
        requires table { IsMapTable brush table.now }
        requires room { x + 284 * (8 * length string.now) < 2 ^ 32 }
        ensures others { KeepsOthers slot self.old self.new }
        ensures painted { (codes : List Code) (front rest : List ℕ) → string.now ≡ front ++ rest
            → IsString brush.string codes front
            → IsStringPainted x y (laid_over brush table.now) (pixels_of_codes brush.string codes)
            (region_at self.old slot) (region_at self.new slot) }
        ensures size { (codes : List Code) (front rest : List ℕ) → string.now ≡ front ++ rest
            → IsString brush.string codes front → result.size ≡ length front }
        ensures column { (codes : List Code) (front rest : List ℕ) → string.now ≡ front ++ rest
            → IsString brush.string codes front
            → result.x ≡ x + length (pixels_of_codes brush.string codes) }
        ensures within { result.size ≤ length string.now }
        ensures forward { x ≤ result.x }
        ensures short { result.x ≤ x + 284 * (8 * result.size) }
        ensures after { (codes : List Code) (front rest : List ℕ) → string.now ≡ front ++ rest
            → IsString brush.string codes front
            → FollowsCall (PaintString slot x y
            (map (shown_code brush table.now) (pixels_of_codes brush.string codes)))
            self.old self.new }
    {
        let extent = extent_at(&self.extents, slot);
        paint_row_string(&mut self.bytes, extent, x, y, string, brush, table)
    }

    /// The code in column x of row y.
    pub fn code_at(&self, slot: Slot, x: u16, y: u16) -> u8
        requires slot { IsPlaced self.now slot }
        requires x { x < (region_at self.now slot).width }
        requires y { y < (region_at self.now slot).height }
        ensures code { result ≡ code_of (region_at self.now slot) x y }
        ensures last { (past : List StoreCall) → IsAfter past self.now
            → result ≡ last_write slot x y past }
    {
        code_at(&self.bytes, extent_at(&self.extents, slot), x, y)
    }

    /// The packed bytes of row y, whole bytes. The bits behind the last pixel are 0.
    pub fn packed_row(&self, slot: Slot, y: u16) -> &[u8]
        requires slot { IsPlaced self.now slot }
        requires y { y < (region_at self.now slot).height }
        ensures { IsPackedRow (region_at self.now slot) y result.now }
    {
        packed_row(&self.bytes, extent_at(&self.extents, slot), y)
    }

    /// How many bytes no region takes.
    pub fn free(&self) -> u64
        ensures free { result ≡ self.now.free }
        ensures all { self.now.free + sum_by need_in self.now.regions ≡ self.now.size }
    {
        (self.bytes.len() - self.used) as u64
    }

    /// Drops all regions: their slots name nothing any more.
    pub fn reset(&mut self)
        ensures empty { self.new ≡ no_regions self.old.size }
        ensures after { IsAfter [] self.new }
    {
        self.extents.clear();
        self.used = 0;
    }
}

// Where the region of a slot is.
fn extent_at(extents: &[Extent], slot: Slot) -> Extent
    requires { slot < length extents.now }
    ensures { result ≡ extent_of extents.now slot }
{
    extents[slot.index]
}
