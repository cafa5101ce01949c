ghost use Rattle.std.specs.Prelude.{◌≤◌};

use crate::same::same;
use std::alloc::Global;
use std::panic::Expect;
use sub_base::{
    BandGate, CLEAR, Colour, Depth, FileSink, FileSource, Items, MemSink, MemSource, NoGate,
    NoMemory, Profile, ProfileName, ReadAllFault, ReadFailed, SetLoad, Sink, Source, Words,
    WriteFailed, decimal_number, default_colour, number_in, read_all, write_whole, zeros,
};

fn colour(y: u8, cr: u8, cb: u8, t: u8) -> Colour {
    Colour { y, cr, cb, t }
}

#[test]
fn default_colours(rt: HostRuntime) {
    same(
        &rt,
        default_colour(Depth::Eight, 1),
        colour(0x51, 0xF0, 0x5A, 0xC0),
    );
    same(
        &rt,
        default_colour(Depth::Eight, 2),
        colour(0x91, 0x22, 0x36, 0xC0),
    );
    same(
        &rt,
        default_colour(Depth::Eight, 3),
        colour(0xD2, 0x92, 0x10, 0xC0),
    );
    same(
        &rt,
        default_colour(Depth::Four, 2),
        colour(0x91, 0x22, 0x36, 0),
    );
    same(
        &rt,
        default_colour(Depth::Four, 4),
        colour(0x29, 0x6E, 0xF0, 0),
    );
    same(
        &rt,
        default_colour(Depth::Two, 1),
        colour(0xEB, 0x80, 0x80, 0),
    );
    same(
        &rt,
        default_colour(Depth::Two, 3),
        colour(0x7E, 0x80, 0x80, 0),
    );
    same(&rt, default_colour(Depth::Two, 0).shown(), CLEAR);
}

#[test]
fn profiles_differ(rt: HostRuntime) {
    same(&rt, Profile::of(ProfileName::Sd).step, Some(705));
    same(&rt, Profile::of(ProfileName::Hd).coded, 61_440);
    same(&rt, Profile::of(ProfileName::Wide).nodes, 8_192);
    same(&rt, Profile::of(ProfileName::Large).step, Some(90));
}

#[test]
fn words_in_order(rt: HostRuntime) {
    let mut words = Words::make(rt.alloc());
    words.push("list").expect(&rt, "memory");
    words.push("256").expect(&rt, "memory");
    same(&rt, words.count(), 2);
    same(&rt, words.word(1), "256");
}

#[test]
fn decimal_numbers(rt: HostRuntime) {
    same(&rt, decimal_number(b"0", 10), Some(0));
    same(&rt, decimal_number(b"8589934591", 10), Some(8_589_934_591));
    same(&rt, decimal_number(b"07", 10), None);
    same(&rt, decimal_number(b"+7", 10), None);
    same(&rt, decimal_number(b"12345678901", 10), None);
    same(&rt, number_in(b"31", 32, 8_190), None);
    same(
        &rt,
        number_in(b"17179869183", 0, 17_179_869_183),
        Some(17_179_869_183),
    );
    same(&rt, number_in(b"100000000000", 0, 999_999_999_999), None);
}

/// A source of the bytes 7, 8, 9, so many a call, that fails at that call.
fn source(alloc: Global, most: usize, fails: u64) -> Result<MemSource, NoMemory>
    requires { 1 ≤ most }
{
    let bytes = vec![in alloc; 7u8, 8, 9]?;
    let fails = vec![in alloc; fails]?;
    Ok(MemSource::make(alloc, bytes, most, fails))
}

#[test]
fn sources_are_read_whole(rt: HostRuntime) {
    let mut whole = source(rt.alloc(), 2, 9).expect(&rt, "memory");
    same(
        &rt,
        read_all(rt.alloc(), &mut whole, 3)
            .expect(&rt, "a source")
            .as_slice(),
        [7, 8, 9].as_slice(),
    );
    let mut long = source(rt.alloc(), 2, 9).expect(&rt, "memory");
    same(
        &rt,
        read_all(rt.alloc(), &mut long, 2).err(),
        Some(ReadAllFault::TooLong),
    );
    let mut failing = source(rt.alloc(), 2, 2).expect(&rt, "memory");
    same(
        &rt,
        read_all(rt.alloc(), &mut failing, 3).err(),
        Some(ReadAllFault::Read),
    );
}

#[test]
fn sinks_fail_at_their_calls(rt: HostRuntime) {
    let mut sink = MemSink::make(
        rt.alloc(),
        2,
        vec![in rt.alloc(); 3u64].expect(&rt, "memory"),
    );
    same(&rt, write_whole(&mut sink, b"abc"), Ok(()));
    same(&rt, write_whole(&mut sink, b"de"), Err(WriteFailed));
    same(&rt, write_whole(&mut sink, b"fg"), Ok(()));
    same(&rt, sink.written(), b"abcfg".as_slice());
}

#[test]
fn buffers_and_lists(rt: HostRuntime) {
    same(
        &rt,
        zeros(rt.alloc(), 2).expect(&rt, "memory").as_slice(),
        [0u8, 0].as_slice(),
    );
    let mut items = Items::new(rt.alloc(), vec![in rt.alloc(); 7u32].expect(&rt, "memory"));
    items.push(8).expect(&rt, "memory");
    same(&rt, items.as_slice(), [7u32, 8].as_slice());
}

/// A set of 31 bytes whose last packet is there at 705, where the set before is shown at 900.
#[test]
fn sets_wait_for_the_one_before(rt: HostRuntime) {
    let load = SetLoad {
        pts: 1_000,
        size: 31,
        painted: 4,
    };
    same(&rt, load.done(705, 900), 935);
    same(&rt, load.done(705, 0), 740);
}

#[test]
fn files_that_are_not_there(rt: HostRuntime) {
    let mut buffer = [0u8; 4];
    let mut bytes = FileSource::make(Some(b"xyz".as_slice()));
    same(&rt, bytes.read(&mut buffer), Ok(3));
    same(&rt, bytes.read(&mut buffer), Ok(0));
    let mut none: FileSource<&[u8]> = FileSource::make(None);
    same(&rt, none.read(&mut buffer), Err(ReadFailed));
    let mut taken = FileSink::make(Some(Vec::new(rt.alloc())));
    same(&rt, write_whole(&mut taken, b"xyz"), Ok(()));
    let mut closed: FileSink<Vec<u8>> = FileSink::make(None);
    same(&rt, closed.write(b"xyz"), Err(WriteFailed));
}

/// That the call ends is all that is tested: this gate does nothing, and gives nothing to compare.
#[test]
fn a_gate_that_does_nothing() {
    NoGate.enter(1);
}
