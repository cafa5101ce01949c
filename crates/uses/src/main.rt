//! A program of the libraries alone: it compiles a script in memory, has a receiver read the
//! packets, and tells the picture that the receiver shows at a tick.
#![tactic(auto)]

ghost use Rattle.std.specs.Prelude.{IsTrue, ◌↔◌};
ghost use Rattle.uses.specs.ToldPicture.{IsDone, TellsPicture};

use bitmap_font::Font;
use cue_list::{LONGEST_SCRIPT, Script};
use decoder_model::Pages;
use dump_text::dump_stream;
use packet_walk::ToldEnd;
use script_stream::compile_script;
use std::alloc::Global;
use std::io;
use std::process::ExitCode;
use std::thread::Threads;
use sub_base::{FileSink, MemSink, MemSource, NoGate, Profile, ProfileName, Sink};

const SCRIPT: &str = "origin,0\ndisplay,4,2\nrefresh,5\nepoch,90000\nregion,0,0,0,4,2,8,0\n\
     picture,a,8,4,2,0102020203030303\nplace,90000,180000,0,0,0,solid,a\n";

fn main(rt: HostRuntime) -> ExitCode {
    let font = Font::empty(rt.alloc());
    let Ok(script) = Script::read(rt.alloc(), SCRIPT.as_bytes(), &font) else {
        return ExitCode::from(1);
    };
    let mut out = FileSink::make(Some(io::writer(&rt)));
    let told = tell_picture(&rt, rt.alloc(), &script, 90_000, &mut out);
    ExitCode::from(u8::from(!told))
}

/// Compiles a script, and writes the picture that a receiver of its packets shows at a tick, from
/// the first packet on. A true answer says that it was written; a false one says nothing.
fn tell_picture<R: Threads + Sync, K: Sink>(
    rt: &R,
    alloc: Global,
    script: &Script,
    tick: u64,
    out: &mut K,
) -> bool
    ensures { IsTrue result → TellsPicture script.now tick
        (K.received out.old).written
        (K.received out.new).written }
{
    if tick < script.origin || tick - script.origin > LONGEST_SCRIPT || tick >= 1 << 34 {
        return false;
    }
    let mut stream = MemSink::make(alloc, 65_536, Vec::new(alloc));
    let Ok(_) = compile_script(alloc, ProfileName::Sd, 256, 1, script, &mut stream) else {
        return false;
    };
    let Ok(bytes) = Vec::from_slice(alloc, stream.written()) else {
        return false;
    };
    let mut source = MemSource::make(alloc, bytes, 65_536, Vec::new(alloc));
    let profile = Profile::of(ProfileName::Sd);
    let end = dump_stream(
        rt,
        alloc,
        &profile,
        256,
        Pages::only(1),
        1,
        &[tick],
        &mut source,
        out,
        &NoGate,
    );
    is_done(end)
}

/// Whether all of a stream was told.
fn is_done(end: ToldEnd) -> bool
    ensures { IsTrue result ↔ IsDone end }
{
    matches!(end, ToldEnd::Done { .. })
}
