ghost use Rattle.std.specs.Prelude.{◌≤◌, length};

use crate::same::{same, same_at};
use pixel_codes::{
    CodeFault, CodeKind, Run, check_block, row_size, run_bits, run_length, write_row,
};
use std::panic::Expect;
use sub_base::Depth;

#[test]
fn least_bits_of_three_depths(rt: HostRuntime) {
    for (length, zeros, others) in [(11, 12, 10), (28, 16, 14), (284, 16, 16), (285, 20, 18)] {
        same_at(&rt, length, run_bits(Depth::Two, 0, length), zeros);
        same_at(&rt, length, run_bits(Depth::Two, 2, length), others);
    }
    for (length, zeros, others) in [(8, 8, 16), (24, 16, 16), (25, 20, 20), (281, 28, 24)] {
        same_at(&rt, length, run_bits(Depth::Four, 0, length), zeros);
        same_at(&rt, length, run_bits(Depth::Four, 9, length), others);
    }
    for (length, zeros, others) in [(2, 16, 16), (3, 16, 24), (127, 16, 24), (128, 32, 32)] {
        same_at(&rt, length, run_bits(Depth::Eight, 0, length), zeros);
        same_at(&rt, length, run_bits(Depth::Eight, 2, length), others);
    }
    same(&rt, run_bits(Depth::Two, 1, 4_294_967_295), 241_970_000);
}

#[test]
fn lengths_of_runs(rt: HostRuntime) {
    let mut codes = [7; 50];
    for length in [1_usize, 2, 3, 15, 16, 17, 31, 32, 33, 47, 48, 49] {
        codes[length] = 9;
        same(&rt, run_length(&codes), length);
        same(&rt, run_length(&codes[..length]), length);
        codes[length] = 7;
    }
    same(&rt, run_length(&codes), 50);
}

#[test]
fn rows_of_three_depths(rt: HostRuntime) {
    let mut two = Vec::new(rt.alloc());
    write_row(
        Depth::Two,
        &[1, 1, 0, 3, 3, 3, 3, 3, 3, 3, 3, 3, 3, 3, 3],
        &mut two,
    )
    .expect(&rt, "room");
    same(&rt, two.as_slice(), b"\x51\x08\x30\x00".as_slice());
    same(&rt, row_size(Depth::Two, &[1, 1, 0, 3, 3, 3]), 3);
    let mut four = Vec::new(rt.alloc());
    write_row(
        Depth::Four,
        &[
            0, 0, 0, 7, 9, 9, 9, 9, 9, 9, 9, 9, 9, 9, 9, 9, 9, 9, 9, 9, 9, 9, 9, 9, 9, 9, 9, 9, 9,
        ],
        &mut four,
    )
    .expect(&rt, "room");
    same(&rt, four.as_slice(), b"\x01\x70\xF0\x09\x00".as_slice());
    let mut eight = Vec::new(rt.alloc());
    write_row(Depth::Eight, &[0, 0, 200, 200, 200, 1], &mut eight).expect(&rt, "room");
    same(
        &rt,
        eight.as_slice(),
        b"\x00\x02\x00\x83\xC8\x01\x00\x00".as_slice(),
    );
}

/// The first fault of a block, and none where it is one.
fn fault_of(bytes: &[u8], depth: Depth) -> Option<CodeFault>
    requires { length bytes.now ≤ 65535 }
{
    check_block(bytes, depth).err()
}

#[test]
fn faults_and_their_places(rt: HostRuntime) {
    let cut = fault_of(&[0x12, 0x00, 0x02], Depth::Eight);
    same(
        &rt,
        cut,
        Some(CodeFault {
            place: 0,
            kind: CodeKind::CutString,
        }),
    );
    let short = fault_of(&[0x11, 0x10], Depth::Four);
    same(
        &rt,
        short,
        Some(CodeFault {
            place: 0,
            kind: CodeKind::CutString,
        }),
    );
    let deep = fault_of(&[0xF0, 0x12, 0x00, 0x00], Depth::Four);
    same(
        &rt,
        deep,
        Some(CodeFault {
            place: 1,
            kind: CodeKind::TooDeep,
        }),
    );
    let table = fault_of(&[0xF0, 0xF0, 0x21, 0x00, 0x01, 0x02], Depth::Eight);
    same(
        &rt,
        table,
        Some(CodeFault {
            place: 2,
            kind: CodeKind::CutTable,
        }),
    );
    let unknown = fault_of(&[0x10, 0x00, 0x13], Depth::Two);
    same(
        &rt,
        unknown,
        Some(CodeFault {
            place: 2,
            kind: CodeKind::UnknownType,
        }),
    );
    same(&rt, fault_of(&[], Depth::Two), None);
}

#[test]
fn runs_with_tables_and_lines(rt: HostRuntime) {
    let bytes = [
        0x20, 0x01, 0x23, 0x10, 0x44, 0x00, 0xF0, 0x11, 0x70, 0x00, 0x10, 0x80,
    ];
    let block = check_block(&bytes, Depth::Four)
        .ok()
        .expect(&rt, "the bytes are a block");
    let mut runs = block.runs();
    let wanted = [
        Run {
            x: 0,
            line: 0,
            length: 1,
            read: 1,
            code: 1,
        },
        Run {
            x: 1,
            line: 0,
            length: 1,
            read: 0,
            code: 0,
        },
        Run {
            x: 0,
            line: 1,
            length: 1,
            read: 7,
            code: 7,
        },
        Run {
            x: 1,
            line: 1,
            length: 1,
            read: 2,
            code: 2,
        },
    ];
    for run in wanted {
        same(&rt, runs.next_run(), Some(run));
    }
    same(&rt, runs.next_run(), None);
    same(&rt, runs.next_run(), None);
}

#[test]
fn default_tables(rt: HostRuntime) {
    let block = check_block(&[0x10, 0x90, 0x00, 0x11, 0x50, 0x00], Depth::Eight)
        .ok()
        .expect(&rt, "the bytes are a block");
    let mut runs = block.runs();
    let wanted = [
        Run {
            x: 0,
            line: 0,
            length: 1,
            read: 2,
            code: 0x88,
        },
        Run {
            x: 1,
            line: 0,
            length: 1,
            read: 1,
            code: 0x77,
        },
        Run {
            x: 2,
            line: 0,
            length: 1,
            read: 5,
            code: 0x55,
        },
    ];
    for run in wanted {
        same(&rt, runs.next_run(), Some(run));
    }
    same(&rt, runs.next_run(), None);
}
