use crate::compiled_scripts::Outcome;
use crate::same::same;
use crate::shown_pictures::run_over;
use dvbsub_cmd::{Status, Which};
use std::alloc::Global;
use std::process::Abort;
use std::thread::Threads;
use sub_base::NoGate;

/// Runs the command. Both of its sources fail at their first read, and the output at the write with
/// the number
/// `bad_write`.
fn run<R: Threads + Sync + Abort>(rt: &R, alloc: Global, line: &str, bad_write: u64) -> Outcome {
    run_over(rt, alloc, line, &[], 1, [1, bad_write], &NoGate)
}

#[test]
fn one_cue_is_generated(rt: HostRuntime) {
    let done = run(&rt, rt.alloc(), "gen 1 sd entries.txt", 0);
    same(&rt, done.status, Status::Done { cut: 0 });
    same(
        &rt,
        done.out.written(),
        b"sets 2\npackets 5\npeak 731\nentry 0 180000\nentry 1 none\nentry 3 none\n".as_slice(),
    );
}

#[test]
fn five_hundred_cues_are_generated_alike(rt: HostRuntime) {
    let done = run(&rt, rt.alloc(), "gen 500 hd entries.txt", 0);
    same(&rt, done.status, Status::Done { cut: 0 });
    same(
        &rt,
        done.out.written(),
        b"sets 1000\n\
          packets 124601\n\
          peak 6106\n\
          entry 0 180000\n\
          entry 41533 15480000\n\
          entry 83067 30420000\n"
            .as_slice(),
    );
    let again = run(&rt, rt.alloc(), "gen 500 hd entries.txt", 0);
    same(&rt, again.status, Status::Done { cut: 0 });
    same(&rt, again.out.written(), done.out.written());
}

#[test]
fn an_output_that_fails_gets_nothing_of_a_generated_script(rt: HostRuntime) {
    let failed = run(&rt, rt.alloc(), "gen 1 sd entries.txt", 1);
    same(&rt, failed.status, Status::WriteFault(Which::Out));
    same(&rt, failed.out.written(), b"".as_slice());
}
