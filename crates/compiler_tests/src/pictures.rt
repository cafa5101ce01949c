ghost use Rattle.std.specs.Prelude.{◌≡◌, ◌≤◌, IfOk};
ghost use Rattle.std.specs.List.{concat};
ghost use Rattle.sub_base.specs.Picture.{picture_of, top_field};

use crate::same::same;
use indexed_picture::{Indexed, PictureFault};
use std::alloc::{AllocError, Global};
use std::panic::Expect;
use std::process::Abort;
use sub_base::Depth;

fn picture<R: Abort>(rt: &R, alloc: Global, width: u16, height: u16, codes: &[u8]) -> Indexed
    requires wide { 1 ≤ width }
    requires high { 1 ≤ height }
    ensures { result ≡ picture_of width height Depth.Two codes.now }
{
    let codes = codes.to_vec(alloc).expect(rt, "memory");
    Indexed::from_codes(alloc, width, height, Depth::Two, codes).expect(rt, "a picture")
}

// What a caller's loop over a field is known to have met.
fn top_codes(alloc: Global, picture: &Indexed) -> Result<Vec<u8>, AllocError>
    ensures { IfOk result (λ codes. codes.items ≡ concat (top_field picture.now)) }
{
    let mut codes = Vec::new(alloc);
    for row in picture.top_rows() {
        codes.extend_from_slice(row)?;
    }
    Ok(codes)
}

#[test]
fn refuses_what_is_no_picture(rt: HostRuntime) {
    let alloc = rt.alloc();
    let short = Indexed::from_codes(
        alloc,
        2,
        1,
        Depth::Two,
        [1].to_vec(alloc).expect(&rt, "memory"),
    )
    .err();
    same(&rt, short, Some(PictureFault::WrongCount));
    let deep = Indexed::from_codes(
        alloc,
        2,
        2,
        Depth::Two,
        [1, 3, 4, 5].to_vec(alloc).expect(&rt, "memory"),
    )
    .err();
    same(&rt, deep, Some(PictureFault::CodeOutside { place: 2 }));
}

#[test]
fn takes_codes_that_are_right(rt: HostRuntime) {
    let known = Indexed::of_codes(
        1,
        1,
        Depth::Two,
        [3].to_vec(rt.alloc()).expect(&rt, "memory"),
    );
    same(&rt, known.codes(), [3].as_slice());
}

#[test]
fn gives_the_rows_of_both_fields(rt: HostRuntime) {
    let three = picture(&rt, rt.alloc(), 2, 3, &[0, 1, 2, 3, 1, 1]);
    let top = top_codes(rt.alloc(), &three).expect(&rt, "memory");
    same(&rt, top.as_slice(), [0, 1, 1, 1].as_slice());
    let mut bottom = Vec::new(rt.alloc());
    for row in three.bottom_rows() {
        bottom.extend_from_slice(row).expect(&rt, "memory");
    }
    same(&rt, bottom.as_slice(), [2, 3].as_slice());
}

#[test]
fn compares_the_fields(rt: HostRuntime) {
    let table: [(u16, u16, &[u8], bool); 5] = [
        (3, 1, &[1, 1, 0], false),
        (3, 2, &[1, 1, 0, 1, 1, 0], true),
        (2, 2, &[1, 0, 0, 1], false),
        (1, 4, &[1, 1, 2, 2], true),
        (1, 4, &[1, 2, 2, 2], false),
    ];
    for (width, height, codes, equal) in table {
        if width > 0 && height > 0 {
            same(
                &rt,
                picture(&rt, rt.alloc(), width, height, codes).fields_equal(),
                equal,
            );
        }
    }
}

#[test]
fn paints_over_a_blank_picture(rt: HostRuntime) {
    let mut below = Indexed::blank(rt.alloc(), 4, 3, Depth::Four).expect(&rt, "memory");
    same(&rt, below.codes(), [0; 12].as_slice());
    let over = picture(&rt, rt.alloc(), 2, 2, &[1, 2, 3, 1]);
    below.paint(0, 0, &over, false);
    below.paint(2, 1, &over, true);
    let painted = [1, 2, 0, 0, 3, 1, 0, 2, 0, 0, 3, 0];
    same(&rt, below.codes(), painted.as_slice());
    below.paint(0, 0, &over, true);
    same(&rt, below.codes(), painted.as_slice());
}
