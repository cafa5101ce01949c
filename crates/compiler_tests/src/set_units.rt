ghost use Rattle.page_epoch.specs.Sendable.{IsOfItsEpoch};

use crate::same::same;
use bitmap_font::Font;
use cue_list::Script;
use page_epoch::{Plan, PlannedSet};
use pes_packets::read_pes;
use set_coder::{KeptBlocks, load_of, size_of, write_set};
use std::alloc::Global;
use std::panic::Expect;
use std::process::Abort;
use sub_base::{Profile, ProfileName, UNIT_ROOM};

/// Appends the record of a picture whose two codes change from pixel to pixel. The string of each
/// of its rows has a byte for each pixel and two for its end, and stands between two bytes; no two
/// neighbouring rows are equal.
fn append_picture<R: Abort>(
    rt: &R,
    alloc: Global,
    text: &mut String,
    name: &str,
    width: u16,
    height: u16,
) {
    text.push_str(&format!(in alloc; "picture,{name},8,{width},{height},").expect(rt, "memory"))
        .expect(rt, "memory");
    for y in 0..height {
        for x in 0..width {
            text.push_str(if x % 2 == y % 2 { "01" } else { "02" })
                .expect(rt, "memory");
        }
    }
    text.push_str("\n").expect(rt, "memory");
}

/// A script of normal sets with an object of 65,482, of 65,484 and of 65,614 bytes, and of a mode
/// change with three objects of 60,014 bytes.
fn script_text<R: Abort>(rt: &R, alloc: Global) -> String {
    let mut text = String::new(alloc);
    text.push_str("origin,0\ndisplay,1920,1080\nrefresh,60\n")
        .expect(rt, "memory");
    text.push_str("epoch,500000\nregion,0,0,0,1920,1080,8,0\n")
        .expect(rt, "memory");
    append_picture(rt, alloc, &mut text, "full", 1255, 52);
    append_picture(rt, alloc, &mut text, "over", 325, 199);
    append_picture(rt, alloc, &mut text, "long", 196, 328);
    append_picture(rt, alloc, &mut text, "large", 196, 300);
    text.push_str("place,1400000,1800000,0,0,0,solid,full\n")
        .expect(rt, "memory");
    text.push_str("place,2200000,2600000,0,0,0,solid,over\n")
        .expect(rt, "memory");
    text.push_str("place,3000000,3400000,0,0,0,solid,long\n")
        .expect(rt, "memory");
    text.push_str("epoch,4000000\nregion,0,0,0,1920,1080,8,0\n")
        .expect(rt, "memory");
    text.push_str("place,4000000,4400000,0,0,0,solid,large\n")
        .expect(rt, "memory");
    text.push_str("place,4000000,4400000,0,200,0,solid,large\n")
        .expect(rt, "memory");
    text.push_str("place,4000000,4400000,0,400,0,solid,large\n")
        .expect(rt, "memory");
    text
}

/// The lengths of the units of each set of that script, and the bytes of its longest segment: an
/// empty page at the start, and after each cue; a unit that is filled to the last byte; one whose
/// end of set has no room; a segment that stands alone; and three objects in three units.
const LOADS: [(&[u32], u64); 9] = [
    (&[58], 16),
    (&[65_541], 65_482),
    (&[31], 8),
    (&[65_537, 23], 65_484),
    (&[31], 8),
    (&[53, 65_631, 23], 65_614),
    (&[31], 8),
    (&[60_090, 60_031, 60_037], 60_014),
    (&[31], 8),
];

/// Tells whether a set has these units and this longest segment, and is written as packets of these
/// lengths at its time, where that can be.
fn check_set<R: Abort>(
    rt: &R,
    alloc: Global,
    script: &Script,
    set: &PlannedSet,
    units: &[u32],
    longest: u64,
)
    requires { IsOfItsEpoch script.now set.now }
{
    let load = load_of(alloc, script, set).expect(rt, "memory");
    same(rt, load.units.as_slice(), units);
    same(rt, load.longest, longest);
    same(rt, size_of(script, set), load.load.size);
    if load.longest > UNIT_ROOM {
        return;
    }
    let mut out = Vec::new(alloc);
    write_set(script, set, 1, &mut out).expect(rt, "memory");
    let kept = KeptBlocks::of_script(alloc, script).expect(rt, "memory");
    let mut again = Vec::new(alloc);
    kept.write_set(script, set, 1, &mut again)
        .expect(rt, "memory");
    same(rt, again.as_slice(), out.as_slice());
    let mut packets = out.as_slice();
    for length in units {
        assert!(rt; *length as usize <= packets.len());
        let (packet, behind) = packets.split_at(*length as usize);
        same(rt, read_pes(packet).expect(rt, "a PES packet").pts, set.pts);
        packets = behind;
    }
    same(rt, packets.len(), 0);
}

#[test]
fn sets_of_several_units(rt: HostRuntime) {
    let alloc = rt.alloc();
    let script = Script::read(
        alloc,
        script_text(&rt, alloc).as_bytes(),
        &Font::empty(alloc),
    )
    .expect(&rt, "a script");
    let plan = Plan::make(alloc, &script, &Profile::of(ProfileName::Large)).expect(&rt, "a plan");
    let sets = plan.sets.as_slice();
    // The proof counts the sets by this.
    assert_eq!(rt; sets.len(), LOADS.len());
    for i in 0..sets.len() {
        let (units, longest) = LOADS[i];
        check_set(&rt, alloc, &script, &sets[i], units, longest);
    }
}
