//! The words of a command line that `clap` finds.

use crate::same::same;
use command_line::positional_words;
use command_words::are_plain;
use samples::words_of;
use std::alloc::Global;
use std::panic::Expect;
use sub_base::{NoMemory, Words};

/// Whether plain words are all found again, in their order. With ample memory nothing else may
/// happen.
fn are_found(alloc: Global, words: &Words) -> Result<bool, NoMemory> {
    if !are_plain(words) {
        return Ok(false);
    }
    let found = positional_words(alloc, words)?;
    if found.count() != words.count() {
        return Ok(false);
    }
    for place in 0..words.count() {
        if place < found.count() && found.word(place) != words.word(place) {
            return Ok(false);
        }
    }
    Ok(true)
}

#[test]
fn words_of_a_line_are_found(rt: HostRuntime) {
    let lines = [
        "list",
        "compile sd 256 1 script.csv font.bdf out.ts",
        "list 256 in.ts list.txt",
        "dump hd 256 1 4 in.ts dump.txt 0 17179869183",
        "check large 0 8190 65535 in.ts check.txt",
        "expect script.csv none expect.txt 90000",
        "gen 500 hd gen.txt",
        "list 256 Füße.ts 字幕.txt",
        "list 256 a=b.ts =",
        "list list list list",
        "help --no -h",
    ];
    for line in lines {
        let words = words_of(rt.alloc(), line).expect(&rt, "memory");
        same(
            &rt,
            are_found(rt.alloc(), &words).expect(&rt, "memory"),
            line != "help --no -h",
        );
    }
}

#[test]
fn as_many_words_as_a_command_may_have_are_found(rt: HostRuntime) {
    let mut words = words_of(rt.alloc(), "dump sd 256 1 1 in.ts dump.txt").expect(&rt, "memory");
    for tick in 0..1_000_u64 {
        let text = format!(in rt.alloc(); "{tick}").expect(&rt, "memory");
        words.push(text.as_str()).expect(&rt, "memory");
    }
    same(&rt, words.count(), 1_007);
    assert!(rt; are_found(rt.alloc(), &words).expect(&rt, "memory"));
}

#[test]
fn no_words_are_found_where_there_are_none(rt: HostRuntime) {
    let words = Words::make(rt.alloc());
    assert!(rt; are_found(rt.alloc(), &words).expect(&rt, "memory"));
}
