//! What of a script's packets is due before its later records are known.

use crate::same::same;
use bitmap_font::Font;
use cue_list::Script;
use live_plan::slots_by;
use script_stream::ScriptStream;
use std::alloc::Global;
use std::process::Abort;
use sub_base::{MemSink, ProfileName};

/// A picture from 450,000 on, which is sent again each 90,000 ticks: the packet of the set at
/// 540,000 is sent at 90,000, in slot 1,000.
const SCRIPT: &str = "origin,0\ndisplay,4,2\nrefresh,1\nepoch,450000\nregion,0,0,0,4,2,8,0\n\
    picture,a,8,4,2,0102020203030303\nplace,450000,1350000,0,0,0,solid,a\n";

/// The same, and a record 453,600 ticks behind 90,000: the page is not sent again 3,600 ticks
/// before it.
const AT_THE_HORIZON: &str = "origin,0\ndisplay,4,2\nrefresh,1\nepoch,450000\n\
    region,0,0,0,4,2,8,0\npicture,a,8,4,2,0102020203030303\nplace,450000,1350000,0,0,0,solid,a\n\
    place,543600,1350000,0,0,0,solid,a\n";

/// The same, and a record one tick later.
const ABOVE_THE_HORIZON: &str = "origin,0\ndisplay,4,2\nrefresh,1\nepoch,450000\n\
    region,0,0,0,4,2,8,0\npicture,a,8,4,2,0102020203030303\nplace,450000,1350000,0,0,0,solid,a\n\
    place,543601,1350000,0,0,0,solid,a\n";

/// The 1,001 slots of a script's packets up to tick 90,000: 188 bytes each.
const DUE: usize = 188_188;

/// The packets of the script of a text, sent to receivers for which each slot has 90 ticks.
fn packets_of<R: Abort>(rt: &R, alloc: Global, text: &str) -> MemSink {
    let font = Font::empty(alloc);
    let Ok(script) = Script::read(alloc, text.as_bytes(), &font) else {
        panic!(rt; "the script is right");
    };
    let Ok(stream) = ScriptStream::make(alloc, ProfileName::Large, 256, 1, &script) else {
        panic!(rt; "the script is sent");
    };
    let mut out = MemSink::make(alloc, 1_000_000, Vec::new(alloc));
    same(rt, stream.write(alloc, &mut out).is_ok(), true);
    out
}

#[test]
fn slots_up_to_a_tick(rt: HostRuntime) {
    same(&rt, slots_by(0, 90, 90_000), 1_001);
    same(&rt, slots_by(0, 90, 89_999), 1_000);
    same(&rt, slots_by(90, 90, 89), 0);
    same(&rt, slots_by(90, 90, 90), 1);
}

#[test]
fn a_record_at_the_horizon_changes_what_is_due(rt: HostRuntime) {
    let alloc = rt.alloc();
    let before = packets_of(&rt, alloc, SCRIPT);
    let near = packets_of(&rt, alloc, AT_THE_HORIZON);
    let far = packets_of(&rt, alloc, ABOVE_THE_HORIZON);
    let due = before.written().get(..DUE);
    same(&rt, due.is_some(), true);
    same(&rt, near.written().get(..DUE) == due, false);
    same(&rt, far.written().get(..DUE) == due, true);
}
