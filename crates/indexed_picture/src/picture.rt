ghost use Rattle.std.specs.Prelude.{◌≡◌, ◌↔◌, ◌+◌, ◌*◌, ◌<◌, ◌≤◌, length, All, IsTrue, IsOk, IfOk, IfErr, MatchOption, replicate};
ghost use Rattle.sub_base.specs.Depth.{code_count};
ghost use Rattle.sub_base.specs.Picture.{IsPicture, IsRow, picture_of, row_of, top_field, bottom_field, HasEqualFields};
ghost use Rattle.indexed_picture.specs.Making.{IsFaultOf, IsFirstOutside};
ghost use Rattle.indexed_picture.specs.Painting.{LiesWithin, IsPainted, PaintsRow};

use crate::fault::PictureFault;
use crate::fields::FieldRows;
use std::alloc::Global;
use std::marker::Model;
use sub_base::{Depth, NoMemory};

/// A picture of pixel codes: a width and a height in pixels, each at least 1, a depth, and width
/// times height codes of that depth, by rows from the top.
#[derive(Drop)]
pub struct Indexed {
    width: u16,
    height: u16,
    depth: Depth,
    codes: Vec<u8>,
}

impl Model for Indexed {
    ghost use Rattle.sub_base.specs.Picture.{Picture, IsPicture, picture_of};

    ghost Value = { Picture };

    ghost view = { λ picture. picture_of picture.width picture.height picture.depth picture.codes.items };

    ghost invariant = { λ picture. IsPicture
        (picture_of picture.width picture.height picture.depth picture.codes.items) };
}

impl Indexed {
    /// The picture of these codes, given by rows. No memory is taken; where the codes are refused,
    /// they are given up.
    pub fn from_codes(
        _alloc: Global,
        width: u16,
        height: u16,
        depth: Depth,
        codes: Vec<u8>,
    ) -> Result<Indexed, PictureFault>
        requires wide { 1 ≤ width }
        requires high { 1 ≤ height }
        ensures made { IfOk result
            (λ picture. picture ≡ picture_of width height depth codes.items) }
        ensures picture { IfOk result IsPicture }
        ensures refused { IfErr result (IsFaultOf (picture_of width height depth codes.items)) }
        ensures succeeds { IsPicture (picture_of width height depth codes.items) → IsOk result }
    {
        if codes.len() != usize::from(width) * usize::from(height) {
            return Err(PictureFault::WrongCount);
        }
        if let Some(place) = first_outside(depth, &codes) {
            return Err(PictureFault::CodeOutside { place });
        }
        Ok(Indexed {
            width,
            height,
            depth,
            codes,
        })
    }

    /// The picture of codes that are known to fit: as many as its sides have places, and of its
    /// depth. They are not looked at.
    pub fn of_codes(width: u16, height: u16, depth: Depth, codes: Vec<u8>) -> Indexed
        requires { IsPicture (picture_of width height depth codes.items) }
        ensures made { result ≡ picture_of width height depth codes.items }
        ensures picture { IsPicture result }
    {
        Indexed {
            width,
            height,
            depth,
            codes,
        }
    }

    /// A picture whose codes are all 0.
    pub fn blank(alloc: Global, width: u16, height: u16, depth: Depth) -> Result<Indexed, NoMemory>
        requires wide { 1 ≤ width }
        requires high { 1 ≤ height }
        ensures made { IfOk result
            (λ picture. picture ≡ picture_of width height depth (replicate (width * height) 0)) }
        ensures picture { IfOk result IsPicture }
    {
        let codes = vec![in alloc; 0; usize::from(width) * usize::from(height)]?;
        Ok(Indexed {
            width,
            height,
            depth,
            codes,
        })
    }

    /// The width in pixels.
    pub fn width(&self) -> u16
        ensures value { result ≡ self.now.width }
        ensures picture { IsPicture self.now }
    {
        self.width
    }

    /// The height in pixels.
    pub fn height(&self) -> u16
        ensures value { result ≡ self.now.height }
        ensures picture { IsPicture self.now }
    {
        self.height
    }

    /// The bits of each code.
    pub fn depth(&self) -> Depth
        ensures value { result ≡ self.now.depth }
        ensures picture { IsPicture self.now }
    {
        // The invariant is wanted: a field has to be read for it.
        let _width = self.width;
        self.depth
    }

    /// All codes, by rows from the top.
    pub fn codes(&self) -> &[u8]
        ensures value { result.now ≡ self.now.codes }
        ensures picture { IsPicture self.now }
    {
        &self.codes
    }

    /// The codes of row `y`, from the left.
    pub fn row(&self, y: u16) -> &[u8]
        requires { y < self.now.height }
        ensures value { result.now ≡ row_of self.now y }
        ensures whole { length result.now ≡ self.now.width }
        ensures each { All (λ code. code < code_count self.now.depth) result.now }
    {
        let width = usize::from(self.width);
        let start = usize::from(y) * width;
        &self.codes[start..start + width]
    }

    /// Rows 0, 2, 4 and so on, from the top (EN 300 743, object data segment: the top field).
    pub fn top_rows(&self) -> FieldRows<'_>
        ensures value { result ≡ top_field self.now }
        ensures rows { All (IsRow self.now) result }
        ensures picture { IsPicture self.now }
    {
        let _ = &self.width; // The invariant is wanted.
        FieldRows::starting_at(self, 0)
    }

    /// Rows 1, 3, 5 and so on (the bottom field): none for a picture of one row.
    pub fn bottom_rows(&self) -> FieldRows<'_>
        ensures value { result ≡ bottom_field self.now }
        ensures rows { All (IsRow self.now) result }
        ensures picture { IsPicture self.now }
    {
        let _ = &self.width; // The invariant is wanted.
        FieldRows::starting_at(self, 1)
    }

    /// Whether the rows of both fields are the same, so that one field's data serve for both.
    pub fn fields_equal(&self) -> bool
        ensures { IsTrue result ↔ HasEqualFields self.now }
    {
        // The top field has a row more then.
        if self.height % 2 != 0 {
            return false;
        }
        for pair in 0..self.height / 2 {
            if self.row(2 * pair) != self.row(2 * pair + 1) {
                return false;
            }
        }
        true
    }

    /// Paints a picture over this one, with its upper left corner at column `x` of row `y`. Each of
    /// its codes replaces the one beneath, but code 1 where the picture is seen through (EN 300
    /// 743, non-modifying colour).
    pub fn paint(&mut self, x: u16, y: u16, over: &Indexed, see_through: bool)
        requires { LiesWithin over.now self.old x y }
        ensures painted { IsPainted self.old over.now x y see_through self.new }
        ensures picture { IsPicture self.new }
    {
        let width = usize::from(self.width);
        for row in 0..over.height() {
            let start = (usize::from(y) + usize::from(row)) * width + usize::from(x);
            paint_row(&mut self.codes, start, over.row(row), see_through);
        }
    }
}

// Paints a row of codes on a list of codes, from place `start` on.
fn paint_row(codes: &mut [u8], start: usize, row: &[u8], see_through: bool)
    requires { start + length row.now ≤ length codes.old }
    ensures { PaintsRow row.now start see_through codes.old codes.new }
{
    for (place, code) in row.iter().enumerate() {
        // Code 1 leaves what is beneath.
        if !(see_through && *code == 1) {
            codes[start + place] = *code;
        }
    }
}

// The place of the first code that the depth does not have.
fn first_outside(depth: Depth, codes: &[u8]) -> Option<usize>
    ensures { MatchOption result (All (λ code. code < code_count depth) codes.now)
        (λ place. IsFirstOutside depth codes.now place) }
{
    let count = depth.code_count();
    codes.iter().position(|code| u16::from(*code) >= count)
}
