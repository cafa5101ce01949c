ghost use Rattle.std.specs.Prelude.{◌≡◌, ℕ, ◌==◌, ◌+◌, ◌*◌, ◌<◌, ◌≤◌, List, ◌++◌, length, replicate, flat_map, All, IfOk, OnOk, OnErr};
ghost use Rattle.sub_base.specs.Depth.{code_count};
ghost use Rattle.stream_syntax.specs.PixelCodes.{bits, bits_of, spelled, ending, string_of, IsRowString, IsRowSize, IsReadAs};
ghost use Rattle.pixel_codes.specs.Private.Least.{chosen};
ghost use Rattle.pixel_codes.specs.Lists.{Extends};
ghost use Rattle.pixel_codes.specs.Private.Maximal.{GoesOn};
ghost use Rattle.pixel_codes.specs.Private.Rows.{runs_of, codes_of, text_from};
ghost use Rattle.pixel_codes.specs.Private.Stream.{stream};

use crate::choice::first_spelling;
use crate::maximal::{ends_of_block, run_length};
use crate::pending::Pending;
use crate::run_table::two_bit_run;
use sub_base::{Depth, NoMemory};

/// Appends the pixel code string of a row of pixel codes with its end code, filled with bits 0 to
/// whole bytes (EN 300 743, 2-bit, 4-bit and 8-bit pixel code strings). Of all strings that spell
/// the row it has the least bits, and of those for each maximal run the greatest list of lengths.
/// After want of memory `out` is as before.
pub fn write_row(depth: Depth, codes: &[u8], out: &mut Vec<u8>) -> Result<(), NoMemory>
    requires { All (λ code. code < code_count depth) codes.now }
    ensures row { OnOk result ((bytes : List ℕ) × (out.new.items ≡ out.old.items ++ bytes)
        × IsRowString depth codes.now bytes × IsRowSize depth codes.now (length bytes)) }
    ensures kept { OnErr result (out.new.items ≡ out.old.items) }

    // Whatever follows, the string is read back as codes that give the row.
    ensures read_back { OnOk result
        ((bytes : List ℕ) × (out.new.items ≡ out.old.items ++ bytes)
        × IsReadAs depth codes.now bytes) }
    // One and a half bytes a pixel, and three more, are enough.
    ensures short { OnOk result
        (2 * length out.new.items ≤ 2 * length out.old.items + 3 * length codes.now + 6) }
{
    let before = out.len();
    let written = append_row(depth, codes, out);
    if written.is_err() {
        out.truncate(before);
    }
    written
}

fn append_row(depth: Depth, codes: &[u8], out: &mut Vec<u8>) -> Result<(), NoMemory>
    requires { All (λ code. code < code_count depth) codes.now }
    ensures text { OnOk result ((fill : ℕ) × (fill < 8)
        × (bits_of out.new.items ≡ bits_of out.old.items
        ++ (string_of depth (codes_of depth (runs_of codes.now)) ++ replicate fill 0))) }
    ensures extends { Extends out.old.items out.new.items }
{
    match depth {
        Depth::Two => append_row_of(Depth::Two, codes, out),
        Depth::Four => append_row_of(Depth::Four, codes, out),
        Depth::Eight => append_row_of(Depth::Eight, codes, out),
    }
}

/// The same, inlined at each depth: the depth is not looked at again for each run.
#[inline(always)]
fn append_row_of(depth: Depth, codes: &[u8], out: &mut Vec<u8>) -> Result<(), NoMemory>
    requires { All (λ code. code < code_count depth) codes.now }
    ensures text { OnOk result ((fill : ℕ) × (fill < 8)
        × (bits_of out.new.items ≡ bits_of out.old.items
        ++ (string_of depth (codes_of depth (runs_of codes.now)) ++ replicate fill 0))) }
    ensures extends { Extends out.old.items out.new.items }
{
    let mut pending = Pending::none();
    let mut from = 0;
    let mut at = 0;
    // Codes of 2 bits have a table of runs, so that the search for their ends is most of the work.
    // The last pixel of a block is compared with the one behind it, so that up to 64 are left.
    while depth == Depth::Two && codes.len() - at > 64 {
        from = append_ended(depth, codes, from, at, &mut pending, out)?;
        at += 64;
    }
    append_rest(depth, codes, from, at, &mut pending, out)?;
    append_end(depth, &mut pending, out)?;
    pending.finish(out)
}

/// Appends the runs that end in the 64 pixels from `at` on, of which the first begins at `begin`,
/// and answers where the run behind them begins.
#[inline(always)]
fn append_ended(
    depth: Depth,
    codes: &[u8],
    begin: usize,
    at: usize,
    pending: &mut Pending,
    out: &mut Vec<u8>,
) -> Result<usize, NoMemory>
    requires codes { All (λ code. code < code_count depth) codes.now }
    requires block { at + 65 ≤ length codes.now }
    requires run { GoesOn codes.now begin at }
    ensures text { IfOk result (λ next.
        stream out.new.items pending.new ++ text_from depth codes.now next
        ≡ stream out.old.items pending.old ++ text_from depth codes.now begin) }
    ensures run { IfOk result (λ next. GoesOn codes.now next (at + 64)) }
    ensures extends { Extends out.old.items out.new.items }
{
    // Text has runs of few pixels, and a search for the end of each costs more.
    let mut ends = ends_of_block(codes, at);
    let mut from = begin;
    while ends != 0 {
        let last = at + ends.trailing_zeros() as usize;
        append_run(depth, codes[last], last + 1 - from, pending, out)?;
        from = last + 1;
        ends &= ends - 1;
    }
    Ok(from)
}

/// Appends the runs from `begin` on, of which the first goes on at `reached`.
#[inline(always)]
fn append_rest(
    depth: Depth,
    codes: &[u8],
    begin: usize,
    reached: usize,
    pending: &mut Pending,
    out: &mut Vec<u8>,
) -> Result<(), NoMemory>
    requires codes { All (λ code. code < code_count depth) codes.now }
    requires run { GoesOn codes.now begin reached }
    ensures text { OnOk result (stream out.new.items pending.new
        ≡ stream out.old.items pending.old ++ text_from depth codes.now begin) }
    ensures extends { Extends out.old.items out.new.items }
{
    let mut from = begin;
    let mut at = reached;
    while at < codes.len() {
        let end = at + run_length(&codes[at..]);
        append_run(depth, codes[at], end - from, pending, out)?;
        from = end;
        at = end;
    }
    Ok(())
}

/// Appends the codes of a run.
#[inline(always)]
fn append_run(
    depth: Depth,
    code: u8,
    count: usize,
    pending: &mut Pending,
    out: &mut Vec<u8>,
) -> Result<(), NoMemory>
    requires { code < code_count depth }
    ensures text { OnOk result (stream out.new.items pending.new
        ≡ stream out.old.items pending.old
        ++ flat_map (spelled depth) (chosen depth code count)) }
    ensures extends { Extends out.old.items out.new.items }
{
    // Most runs of text are short, and the codes of one are put at once.
    if depth == Depth::Two && count < 64 {
        let run = two_bit_run(code, count);
        return pending.push(run.bits, run.width, out);
    }
    append_codes(depth, code, count, pending, out)
}

/// The same, one code after another.
#[inline(always)]
fn append_codes(
    depth: Depth,
    code: u8,
    count: usize,
    pending: &mut Pending,
    out: &mut Vec<u8>,
) -> Result<(), NoMemory>
    requires { code < code_count depth }
    ensures text { OnOk result (stream out.new.items pending.new
        ≡ stream out.old.items pending.old
        ++ flat_map (spelled depth) (chosen depth code count)) }
    ensures extends { Extends out.old.items out.new.items }
{
    let mut left = count;
    while left > 0 {
        let first = first_spelling(depth, code, left);
        pending.push(first.bits, first.width, out)?;
        left -= first.pixels;
    }
    Ok(())
}

/// Appends the end of a string.
fn append_end(depth: Depth, pending: &mut Pending, out: &mut Vec<u8>) -> Result<(), NoMemory>
    ensures text { OnOk result
        (stream out.new.items pending.new ≡ stream out.old.items pending.old ++ ending depth) }
    ensures extends { Extends out.old.items out.new.items }
{
    pending.push(0, end_width(depth), out)
}

/// How many bits, all 0, the end of a string has.
#[tactic(auto, using(crate::proofs::Rows::two_ending, crate::proofs::Rows::four_ending, crate::proofs::Rows::eight_ending))]
pub(crate) fn end_width(depth: Depth) -> u32
    ensures spelled { bits result 0 ≡ ending depth }
    ensures narrow { result ≤ 24 }
{
    match depth {
        Depth::Two => 6,
        Depth::Four => 8,
        Depth::Eight => 16,
    }
}
