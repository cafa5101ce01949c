ghost use Rattle.std.specs.Prelude.{◌≡◌, ◌<◌, ◌≤◌, IfOk, length, drop, None, true};
ghost use Rattle.command_words.specs.Ticks.{are_rising as are_ticks_rising, asked_ticks, has_ticks as has_ticks_at, is_above as is_tick_above, tick_or_zero};
ghost use Rattle.command_words.specs.Words.{word_at};

use crate::ranges::{LATEST_TICK, MOST_TICKS};
use std::alloc::{AllocError, Global};
use sub_base::{Words, number_in};

/// Whether so many words come before 1 to 1,000 ticks that rise.
pub fn has_ticks(words: &Words, place: usize) -> bool
    requires { place ≤ 8 }
    ensures is { result ≡ has_ticks_at place words.now }
    ensures some { result ≡ true → place < length words.now }
    ensures rising { result ≡ true → are_ticks_rising None (drop place words.now) ≡ true }
{
    words.count() > place && words.count() <= place + MOST_TICKS && are_rising(words, place)
}

/// Whether the words from a place on are ticks that rise.
fn are_rising(words: &Words, place: usize) -> bool
    requires { place ≤ length words.now }
    ensures { result ≡ are_ticks_rising None (drop place words.now) }
{
    let mut before = None;
    for place in place..words.count() {
        let Some(tick) = number_in(words.word(place).as_bytes(), 0, LATEST_TICK) else {
            return false;
        };
        if !is_above(before, tick) {
            return false;
        }
        before = Some(tick);
    }
    true
}

fn is_above(before: Option<u64>, tick: u64) -> bool
    ensures { result ≡ is_tick_above before tick }
{
    match before {
        None => true,
        Some(before) => before < tick,
    }
}

/// The ticks that the words from a place on are, in ticks of 90 kHz.
pub fn ticks_of(alloc: Global, words: &Words, place: usize) -> Result<Vec<u64>, AllocError>
    ensures { IfOk result (λ ticks. ticks.items ≡ asked_ticks place words.now) }
{
    let mut ticks = Vec::new(alloc);
    for place in place..words.count() {
        ticks.push(tick_at(words, place))?;
    }
    Ok(ticks)
}

/// The tick that the word at a place is.
fn tick_at(words: &Words, place: usize) -> u64
    requires { place < length words.now }
    ensures { result ≡ tick_or_zero (word_at words.now place) }
{
    // Each of these words is a tick, or the command would not have been read.
    number_in(words.word(place).as_bytes(), 0, LATEST_TICK).unwrap_or(0)
}
