ghost use Rattle.std.specs.Prelude.{◌≡◌, ◌+◌, ◌<◌, ◌≤◌, ◌^◌, ◌++◌, [], ◌∷◌, length, slice_index, take, replicate, All, IfSome, Some, OnOk};
ghost use Rattle.sub_base.specs.Depth.{code_count};
ghost use Rattle.cue_records.specs.CellFaults.{fault_in};
ghost use Rattle.sub_base.specs.Number.{number_in as number_in_of, hex_value};
ghost use Rattle.cue_records.specs.Codes.{double_code as code_of_two};
ghost use Rattle.cue_records.specs.declared.limits.TheConstants.{LONGEST_RUN};
ghost use Rattle.cue_records.specs.PixelRuns.{place_of as place_of_mark, code_at_depth as code_at_depth_of, run_in as run_in_of, first_run as first_run_of, run_codes, is_in_runs as is_in_runs_of};
ghost use Rattle.cue_records.specs.CodeFaults.{runs_fault};

use crate::fault::ScriptKind;
use crate::hex::digit_value;
use crate::limits::LONGEST_RUN;
use sub_base::{Depth, number_in};

/// So many pixels of one code, one after the other.
#[derive(Clone, Copy, Debug)]
pub struct PixelRun {
    /// How many pixels, 1 to 2,073,600.
    pub count: u32,
    /// Their code.
    pub code: u8,
}

/// Whether the codes of a picture are runs: a `*` stands in them.
pub(crate) fn is_in_runs(text: &[u8]) -> bool
    ensures { result ≡ is_in_runs_of text.now }
{
    text.contains(&b'*')
}

/// Puts the codes that runs spell in their places, and says what is wrong with the runs: the first
/// that is none, then their sum, then a code that is too large for the depth.
pub(crate) fn put_runs(depth: Depth, text: &[u8], codes: &mut [u8]) -> Result<(), ScriptKind>
    requires { (length codes.old < 2 ^ 32) }
    ensures fault { fault_in result ≡ runs_fault depth (length codes.old) text.now }
    ensures codes { OnOk result (run_codes depth text.now ≡ Some codes.new) }
    ensures range { OnOk result (All (λ code. code < code_count depth) codes.new) }
    ensures count { length codes.new ≡ length codes.old }
{
    let mut start = 0;
    let mut filled = 0;
    let mut valid = true;
    // A run begins behind each space, and so behind one at the end of the text.
    while start <= text.len() {
        let Some((run, length)) = first_run(depth, &text[start..]) else {
            return Err(ScriptKind::Number);
        };
        filled = put_run(run, codes, filled);
        valid &= u16::from(run.code) < depth.code_count();
        start += length + 1;
    }
    if filled != codes.len() {
        return Err(ScriptKind::Count);
    }
    if !valid {
        return Err(ScriptKind::CodeRange);
    }
    Ok(())
}

/// Puts a run's pixels behind those that are there, and says how many there are then: one more than
/// there are places, where they do not fit.
fn put_run(run: PixelRun, codes: &mut [u8], filled: usize) -> usize
    requires small { (length codes.old < 2 ^ 32) }
    requires filled { filled ≤ length codes.old + 1 }
    ensures fits { filled + run.count ≤ length codes.old
        → (result ≡ filled + run.count)
        × (take result codes.new ≡ take filled codes.old ++ replicate run.count run.code) }
    ensures over { length codes.old < filled + run.count → result ≡ length codes.old + 1 }
    ensures count { length codes.new ≡ length codes.old }
{
    let end = filled + run.count as usize;
    if end > codes.len() {
        return codes.len() + 1;
    }
    if run.count == 1 {
        // Half of the runs of smoothed text have one pixel or two.
        codes[filled] = run.code;
    } else {
        codes[filled..end].fill(run.code);
    }
    end
}

/// The first run of a text, and its length in bytes: up to the first space, or all of the text.
fn first_run(depth: Depth, text: &[u8]) -> Option<(PixelRun, usize)>
    ensures run { result ≡ first_run_of depth text.now }
    ensures within { IfSome result (λ found. found.1 ≤ length text.now) }
{
    // Nearly all runs are short, and are read without a search for their ends.
    if let Some(found) = short_run(depth, text) {
        return Some(found);
    }
    let length = place_of(b' ', text);
    let run = run_in(depth, &text[..length])?;
    Some((run, length))
}

/// The first run of a text, where its count has one digit or two and a space stands behind it.
#[inline(always)]
fn short_run(depth: Depth, text: &[u8]) -> Option<(PixelRun, usize)>
    ensures run { IfSome result (λ found. first_run_of depth text.now ≡ Some found) }
    ensures within { IfSome result (λ found. found.1 ≤ length text.now) }
{
    let star = near_star(text)?;
    let count = count_in(&text[..star])?;
    let (code, digits) = code_before_space(depth, text[star + 1], text[star + 2], text[star + 3])?;
    let run = PixelRun {
        count: count as u32,
        code,
    };
    Some((run, star + 1 + digits))
}

/// Where the `*` of a text stands that has it behind one byte or two, and three bytes or more
/// behind it.
#[inline(always)]
fn near_star(text: &[u8]) -> Option<usize>
    ensures near { IfSome result (λ star. (1 ≤ star) × (star ≤ 2)) }
    ensures star { IfSome result (λ star. slice_index text.now star ≡ 42) }
    ensures long { IfSome result (λ star. 6 ≤ length text.now) }
{
    if text.len() < 6 {
        None
    } else if text[1] == b'*' {
        Some(1)
    } else if text[2] == b'*' {
        Some(2)
    } else {
        None
    }
}

/// The code that three bytes begin with, and how many digits it has, where a space stands behind
/// these.
#[inline(always)]
fn code_before_space(depth: Depth, first: u8, second: u8, third: u8) -> Option<(u8, usize)>
    ensures code { IfSome result (λ found.
        code_at_depth_of depth (take found.1 (first ∷ second ∷ third ∷ [])) ≡ Some found.0) }
    ensures space { IfSome result (λ found.
        place_of_mark 32 (first ∷ second ∷ third ∷ []) ≡ found.1) }
    ensures few { IfSome result (λ found. found.1 ≤ 2) }
{
    if depth == Depth::Eight {
        if third != b' ' {
            return None;
        }
        Some((double_code(first, second)?, 2))
    } else {
        if second != b' ' {
            return None;
        }
        Some((single_code(first)?, 1))
    }
}

/// The run that a text is: a count, a `*`, and the digits of a code.
fn run_in(depth: Depth, text: &[u8]) -> Option<PixelRun>
    ensures { result ≡ run_in_of depth text.now }
{
    let star = place_of(b'*', text);
    let count = count_in(&text[..star])?;
    let code = code_at_depth(depth, text.get(star + 1..).unwrap_or(&[]))?;
    Some(PixelRun {
        count: count as u32,
        code,
    })
}

/// The count that a text is, 1 to 2,073,600.
#[inline(always)]
fn count_in(text: &[u8]) -> Option<u64>
    ensures value { result ≡ number_in_of 1 LONGEST_RUN text.now }
    ensures most { IfSome result (λ count. count ≤ LONGEST_RUN) }
{
    match text {
        // Nearly all runs of text are shorter than a hundred pixels.
        [ones @ b'1'..=b'9'] => Some(u64::from(*ones - b'0')),
        [tens @ b'1'..=b'9', ones @ b'0'..=b'9'] => {
            Some(u64::from(*tens - b'0') * 10 + u64::from(*ones - b'0'))
        }
        _ => number_in(text, 1, u64::from(LONGEST_RUN)),
    }
}

/// The code that digits are: one hexadecimal digit, two at 8 bits.
fn code_at_depth(depth: Depth, digits: &[u8]) -> Option<u8>
    ensures { result ≡ code_at_depth_of depth digits.now }
{
    match (depth, digits) {
        (Depth::Two | Depth::Four, [digit]) => single_code(*digit),
        (Depth::Eight, [high, low]) => double_code(*high, *low),
        _ => None,
    }
}

/// The code of one hexadecimal digit.
#[inline(always)]
fn single_code(digit: u8) -> Option<u8>
    ensures { result ≡ hex_value digit }
{
    // By its value, and not by its kind: a processor cannot foresee whether it is a letter.
    let value = digit_value(digit);
    if value < 16 { Some(value) } else { None }
}

/// The code of two hexadecimal digits.
#[inline(always)]
fn double_code(high: u8, low: u8) -> Option<u8>
    ensures { result ≡ code_of_two high low }
{
    let (first, second) = (digit_value(high), digit_value(low));
    if first < 16 && second < 16 {
        Some(16 * first + second)
    } else {
        None
    }
}

/// Where the first such byte of a text stands; its length, where there is none.
fn place_of(mark: u8, text: &[u8]) -> usize
    ensures value { result ≡ place_of_mark mark text.now }
    ensures within { result ≤ length text.now }
{
    let mut place = 0;
    while place < text.len() && text[place] != mark {
        place += 1;
    }
    place
}
