use crate::same::same;
use service_mux::MuxFault;
use std::panic::Expect;
use sub_base::{MemSink, ToolStatus, Which, Words};
use tool_files::{carry_out, told};

/// Words, and the code that the program ends with.
#[test]
fn codes_of_tools_that_fail(rt: HostRuntime) {
    let missing = "take 1 no_such_stream.ts no_such_folder/out.ts";
    let none_there = "take 1 /dev/null no_such_folder/out.ts";
    let empty = "mux 1 100 256 1 eng 2 101 257 1 fre /dev/null /dev/null no_such_folder/out.ts";
    let same_pid = "mux 1 100 256 1 eng 2 101 256 1 fre /dev/null /dev/null out.ts";
    let no_script = "pair sd 256 1 2 3 /dev/null /dev/null no_such_folder/out.ts";
    let no_second = "pair sd 256 1 2 3 /dev/null no_such.csv no_such_folder/out.ts";
    let missing_first = "pair sd 256 1 2 3 no_such.csv /dev/null no_such_folder/out.ts";
    let same_page = "pair sd 256 1 2 1 /dev/null /dev/null no_such_folder/out.ts";
    let no_stream = "pairdump sd 256 1 3 1 no_such.ts no_such_folder/out.txt 0";
    let untold = "pairdump sd 256 1 3 1 /dev/null no_such_folder/out.txt 0";
    let overwriting = "mux 1 100 256 1 eng 2 101 257 1 fre /dev/null /dev/null /dev/null";
    let cases = [
        ("list 256 a b", 2),
        ("take 0 a b", 2),
        (same_page, 2),
        (no_script, 3),
        (no_second, 3),
        (missing_first, 5),
        (no_stream, 5),
        (untold, 6),
        (same_pid, 2),
        (none_there, 3),
        (missing, 5),
        (empty, 6),
        (overwriting, 6),
        (
            "splice sd 256 1 0 1 /dev/null /dev/null no_such_folder/out.ts",
            3,
        ),
        ("splice sd 256 1 0 1 /dev/null no_such_stream.ts out.ts", 5),
        ("splice sd 256 1 8589934592 1 /dev/null /dev/null out.ts", 2),
        ("pictures sd 256 1 1 no_such.ts no_such_folder/out.txt", 5),
        ("pictures sd 256 1 1 /dev/null no_such_folder/out.txt", 6),
        ("pictures sd 256 1 65 /dev/null out.txt", 2),
        ("pids no_such.ts no_such_folder/out.txt", 5),
        ("pids /dev/null no_such_folder/out.txt", 6),
        ("pids /dev/null", 2),
        ("faults sd 256 1 no_such.ts no_such_folder/out.txt", 5),
        ("faults sd 256 1 /dev/null no_such_folder/out.txt", 6),
        ("faults sd 256 65536 /dev/null out.txt", 2),
        ("levels sd 256 1 1000 no_such.ts no_such_folder/out.txt", 5),
        (
            "levels sd 256 1 1000000000 /dev/null no_such_folder/out.txt",
            6,
        ),
        ("levels sd 256 1 999 /dev/null out.txt", 2),
        ("live sd 256 1 no_such.csv none no_such_folder/out.ts", 5),
        (
            "live sd 256 1 /dev/null no_such.bdf no_such_folder/out.ts",
            5,
        ),
        ("live sd 256 1 /dev/null none no_such_folder/out.ts", 3),
        ("live sd 256 1 /dev/null /dev/null no_such_folder/out.ts", 3),
        ("live wide 256 1 /dev/null none out.ts", 2),
    ];
    for (line, code) in cases {
        let mut words = Words::make(rt.alloc());
        for word in line.split(' ') {
            words.push(word).expect(&rt, "memory");
        }
        same(&rt, carry_out(&rt, &rt, &words), code);
    }
}

/// A wrong command line brings the table of tools, on standard error and there alone; no other
/// status does.
#[test]
fn the_table_of_tools_is_told(rt: HostRuntime) {
    let alloc = rt.alloc();
    let cases: [(ToolStatus<MuxFault>, u8, &str, &str); 3] = [
        (
            ToolStatus::Usage,
            2,
            "mux N1 M1 PID1 PAGE1 LANG1 N2 M2 PID2 PAGE2 LANG2 STREAM1 STREAM2 OUT\n\
            take N STREAM OUT\npair PROFILE PID PAGE1 PAGE2 ANC SCRIPT1 SCRIPT2 OUT\n\
            pairdump PROFILE PID PAGE ANC BANDS STREAM OUT TICK...\n\
            live PROFILE PID PAGE SCRIPT FONT OUT\n\
            splice PROFILE PID PAGE ORIGIN CUT STREAM1 STREAM2 OUT\n\
            pids STREAM OUT\n\
            pictures PROFILE PID PAGE BANDS STREAM OUT\n\
            faults PROFILE PID PAGE STREAM OUT\n\
            levels PROFILE PID PAGE RATE STREAM OUT\n",
            "usage\n",
        ),
        (ToolStatus::Memory, 7, "", "memory\n"),
        (
            ToolStatus::InputTooLong(Which::First),
            8,
            "",
            "long first\n",
        ),
    ];
    for (status, code, table, line) in cases {
        let mut errors = MemSink::make(alloc, 1000, Vec::new(alloc));
        let mut out = MemSink::make(alloc, 1000, Vec::new(alloc));
        same(&rt, told(status, &mut errors, &mut out), code);
        same(&rt, errors.written(), table.as_bytes());
        same(&rt, out.written(), line.as_bytes());
    }
}
