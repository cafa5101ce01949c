use crate::same::same;
use crate::wanted_plans::*;
use bitmap_font::Font;
use cue_list::Script;
use page_epoch::{Plan, PlanFault, PlannedSet, SentClut, SentRegion};
use std::alloc::Global;
use std::panic::Expect;
use std::process::Abort;
use stream_syntax::State;
use sub_base::{NoMemory, Profile, ProfileName};

/// The script of a text.
fn script_of<R: Abort>(rt: &R, alloc: Global, text: &str) -> Script {
    let font = Font::empty(alloc);
    match Script::read(alloc, text.as_bytes(), &font) {
        Ok(script) => script,
        Err(fault) => panic!(rt; "the script is right: {fault}"),
    }
}

/// The plan of the script of a text, for a receiver of standard definition.
fn plan_of<R: Abort>(rt: &R, alloc: Global, text: &str) -> Result<Plan, PlanFault> {
    let script = script_of(rt, alloc, text);
    Plan::make(alloc, &script, &Profile::of(ProfileName::Sd))
}

fn check_regions<R: Abort>(rt: &R, regions: &[SentRegion], wanted: &[WantedRegion]) {
    same(rt, regions.len(), wanted.len());
    for (i, (id, version, fill, cues)) in wanted.iter().enumerate() {
        let Some(region) = regions.get(i) else {
            panic!(rt; "the region is sent");
        };
        same(
            rt,
            (region.id, region.version, region.fill),
            (*id, *version, *fill),
        );
        same(rt, region.cues.as_slice(), *cues);
    }
}

fn check_cluts<R: Abort>(rt: &R, cluts: &[SentClut], wanted: &[WantedClut]) {
    same(rt, cluts.len(), wanted.len());
    for (i, (number, version, rows)) in wanted.iter().enumerate() {
        let Some(clut) = cluts.get(i) else {
            panic!(rt; "the CLUT is sent");
        };
        same(rt, (clut.clut, clut.version), (*number, *version));
        same(rt, clut.rows.as_slice(), *rows);
    }
}

fn check_set<R: Abort>(rt: &R, set: &PlannedSet, wanted: &Wanted) {
    same(rt, (set.pts, set.state), (wanted.pts, wanted.state));
    same(
        rt,
        (set.row, set.page_version),
        (wanted.row, wanted.page_version),
    );
    same(rt, set.shown.as_slice(), wanted.shown);
    check_regions(rt, set.regions.as_slice(), wanted.regions);
    check_cluts(rt, set.cluts.as_slice(), wanted.cluts);
    same(rt, set.cues.as_slice(), wanted.cues);
}

/// The script of a text has the plan of these sets.
fn check_plan<R: Abort>(rt: &R, alloc: Global, text: &str, wanted: &[Wanted]) {
    let plan = match plan_of(rt, alloc, text) {
        Ok(plan) => plan,
        Err(fault) => panic!(rt; "the receiver holds all sets: {fault}"),
    };
    let sets = plan.sets.as_slice();
    same(rt, sets.len(), wanted.len());
    for (i, wanted) in wanted.iter().enumerate() {
        let Some(set) = sets.get(i) else {
            panic!(rt; "the set is planned");
        };
        check_set(rt, set, wanted);
    }
}

#[test]
fn plans_of_small_scripts(rt: HostRuntime) {
    let alloc = rt.alloc();
    check_plan(&rt, alloc, SEE_THROUGH, &SEE_THROUGH_SETS);
    check_plan(&rt, alloc, THREE_CUES, &THREE_CUES_SETS);
    check_plan(&rt, alloc, EMPTY_REGION, &EMPTY_REGION_SETS);
    check_plan(&rt, alloc, COLOURS, &COLOURS_SETS);
    check_plan(&rt, alloc, TWO_EPOCHS, &TWO_EPOCHS_SETS);
}

/// A cue of forty seconds is sent again each five seconds, by the record of the set before; where
/// the eighth refresh would be, the cue ends: a receiver is due to begin there, so the region is
/// sent too, which is empty then.
#[test]
fn a_cue_of_forty_seconds(rt: HostRuntime) {
    let text = "origin,0\n\
         display,8,8\n\
         refresh,5\n\
         epoch,90000\n\
         region,0,0,0,8,8,4,0\n\
         picture,a,4,1,1,3\n\
         place,90000,3690000,0,0,0,solid,a\n";
    let plan = plan_of(&rt, rt.alloc(), text).expect(&rt, "memory");
    let sets = plan.sets.as_slice();
    // The proof counts the sets by this.
    assert_eq!(rt; sets.len(), 9);
    for (i, set) in sets.iter().enumerate() {
        let shown = i < 8;
        let wanted = Wanted {
            pts: 90_000 + 450_000 * i as u64,
            state: if i == 0 {
                State::ModeChange
            } else {
                State::Acquisition
            },
            row: if shown { 4 } else { 7 },
            page_version: if shown { 0 } else { 1 },
            shown: if shown { &[0] } else { &[] },
            regions: if shown {
                &[(0, 0, true, &[0])]
            } else {
                &[(0, 0, true, &[])]
            },
            cluts: &[],
            cues: if shown { &[0] } else { &[] },
        };
        check_set(&rt, set, &wanted);
    }
}

/// A script of one region that shows twenty cues, each for a second.
fn changing_script(alloc: Global) -> Result<String, NoMemory> {
    let mut text = String::from_str(
        alloc,
        "origin,0\ndisplay,8,8\nrefresh,60\nepoch,90000\nregion,0,0,0,8,8,4,0\npicture,a,4,1,1,3\n",
    )?;
    for cue in 1..=20u64 {
        writeln!(
            text,
            "place,{},{},0,0,0,solid,a",
            90_000 * cue,
            90_000 * cue + 90_000
        )?;
    }
    Ok(text)
}

/// The versions of a region and of the page begin anew after 15.
#[test]
fn versions_wrap(rt: HostRuntime) {
    let alloc = rt.alloc();
    let text = changing_script(alloc).expect(&rt, "memory");
    let plan = plan_of(&rt, alloc, &text).expect(&rt, "memory");
    let sets = plan.sets.as_slice();
    same(&rt, sets.len(), 21);
    for (i, version) in [(0, 0), (1, 1), (15, 15), (16, 0), (17, 1), (19, 3)] {
        let Some(set) = sets.get(i) else {
            panic!(rt; "the set is planned");
        };
        let Some(region) = set.regions.as_slice().first() else {
            panic!(rt; "the region is sent");
        };
        same(
            &rt,
            (set.page_version, region.version, region.fill),
            (version, version, true),
        );
        same(&rt, region.cues.as_slice(), [i as u32].as_slice());
    }
    let Some(last) = sets.last() else {
        panic!(rt; "the last cue ends");
    };
    same(
        &rt,
        (last.page_version, last.regions.len(), last.shown.len()),
        (4, 0, 0),
    );
}

/// A region of 180 bytes by 576 rows does not fit the pixel buffer of 81,920 bytes; a region with
/// two CLUTs of 276 entries each needs 1 + 2 * 277 nodes.
#[test]
fn the_first_set_that_a_receiver_cannot_hold(rt: HostRuntime) {
    let alloc = rt.alloc();
    let large = "origin,0\ndisplay,720,576\nrefresh,5\nepoch,90000\nregion,0,0,0,720,576,2,0\n";
    same(
        &rt,
        plan_of(&rt, alloc, large).err(),
        Some(PlanFault::PixelFull {
            row: 4,
            need: 103_680,
        }),
    );
    let mut text = String::from_str(
        alloc,
        "origin,0\ndisplay,4,2\nrefresh,5\nepoch,90000\nregion,0,0,0,4,2,8,0\n",
    )
    .expect(&rt, "memory");
    for clut in 0..2 {
        for (depth, entries) in [(2, 4), (4, 16), (8, 256)] {
            for entry in 0..entries {
                writeln!(
                    text,
                    "colour,90000,{},{},{},100,128,128,0",
                    clut, depth, entry
                )
                .expect(&rt, "memory");
            }
        }
    }
    same(
        &rt,
        plan_of(&rt, alloc, &text).err(),
        Some(PlanFault::CompositionFull { row: 4, need: 555 }),
    );
}
