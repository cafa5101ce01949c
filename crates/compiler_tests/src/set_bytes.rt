ghost use Rattle.std.specs.Prelude.{◌≡◌, ◌<◌, ◌≤◌, ◌^◌, [], ◌∷◌, length, All, IfOk};
ghost use Rattle.sub_base.specs.Picture.{IsPicture};
ghost use Rattle.cue_list.specs.Sound.{IsSoundScript};
ghost use Rattle.page_epoch.specs.Sendable.{IsSendableClut, IsSendableIn};
ghost use Rattle.compiler_tests.specs.Private.Sample.{sample};

use crate::same::same;
use cue_list::{ColourRow, Cue, Epoch, Pictures, Region, Script};
use indexed_picture::Indexed;
use page_epoch::{PlannedSet, SentClut, SentRegion, State};
use set_coder::{KeptBlocks, load_of, size_of, write_set};
use std::alloc::Global;
use std::panic::Expect;
use std::process::Abort;
use sub_base::{Colour, Depth, Items, NoMemory, SetLoad, UNIT_ROOM};

/// A picture of four pixels of four bits.
fn four_pixels<R: Abort>(rt: &R, alloc: Global, codes: &[u8]) -> Indexed
    ensures sides { (result.width ≡ 4) × (result.height ≡ 1) × (result.depth ≡ Depth.Four) }
    ensures picture { IsPicture result }
{
    let codes = codes.to_vec(alloc).expect(rt, "memory");
    Indexed::from_codes(alloc, 4, 1, Depth::Four, codes).expect(rt, "a picture")
}

/// The epoch of one region, in which a solid picture is shown, and later a second one over it that
/// is seen through. A colour is set as the epoch starts.
fn sample_epoch(alloc: Global) -> Result<Epoch, NoMemory>
    ensures { IfOk result (λ epoch. epoch ≡ sample) }
{
    Ok(Epoch {
        start: 90_000,
        row: 4,
        regions: Items::new(alloc, vec![in alloc; REGION]?),
        colours: Items::new(alloc, vec![in alloc; COLOUR]?),
        cues: Items::new(alloc, vec![in alloc; SOLID, THROUGH]?),
    })
}

/// The script of that epoch and these pictures.
fn script_of(alloc: Global, epochs: Vec<Epoch>, pictures: Vec<Indexed>) -> Script
    requires { IsSoundScript 0 4 1 450000 epochs.items pictures.items }
    ensures { result.epochs ≡ epochs.items }
{
    Script {
        origin: 0,
        width: 4,
        height: 1,
        refresh: 450_000,
        epochs: Items::new(alloc, epochs),
        pictures: Pictures::new(alloc, pictures),
    }
}

/// The script of two cues, whose second picture is seen through.
fn script<R: Abort>(rt: &R, alloc: Global) -> Script
    ensures { result.epochs ≡ sample ∷ [] }
{
    let solid = four_pixels(rt, alloc, &[2, 2, 2, 2]);
    let through = four_pixels(rt, alloc, &[1, 1, 3, 4]);
    let epochs = vec![in alloc; sample_epoch(alloc).expect(rt, "memory")].expect(rt, "memory");
    let pictures = vec![in alloc; solid, through].expect(rt, "memory");
    script_of(alloc, epochs, pictures)
}

const REGION: Region = Region {
    id: 0,
    x: 0,
    y: 0,
    width: 4,
    height: 1,
    depth: Depth::Four,
    clut: 0,
};

const COLOUR: ColourRow = ColourRow {
    tick: 90_000,
    row: 6,
    clut: 0,
    depth: Depth::Four,
    entry: 2,
    colour: Colour {
        y: 81,
        cr: 240,
        cb: 90,
        t: 192,
    },
};

const SOLID: Cue = Cue {
    start: 90_000,
    end: 270_000,
    row: 9,
    region: 0,
    x: 0,
    y: 0,
    picture: 0,
    see_through: false,
};

const THROUGH: Cue = Cue {
    start: 135_000,
    end: 270_000,
    row: 10,
    region: 0,
    x: 0,
    y: 0,
    picture: 1,
    see_through: true,
};

/// The packet of the set that brings the whole page.
#[rattlefmt::skip]
const WHOLE_PAGE: [u8; 90] = [
    0x00, 0x00, 0x01, 0xBD, 0x00, 0x54, 0x84, 0x80, 0x05, 0x21, 0x00, 0x05, 0xBF, 0x21, 0x20, 0x00,
    0x0F, 0x14, 0x00, 0x01, 0x00, 0x05, 0x07, 0x00, 0x03, 0x00, 0x00, 0x0F, 0x10, 0x00, 0x01, 0x00,
    0x08, 0x0C, 0x0B, 0x00, 0xFF, 0x00, 0x00, 0x00, 0x00, 0x0F, 0x11, 0x00, 0x01, 0x00, 0x10, 0x00,
    0x0F, 0x00, 0x04, 0x00, 0x01, 0x4B, 0x00, 0x00, 0x03, 0x00, 0x00, 0x00, 0x00, 0xF0, 0x00, 0x0F,
    0x13, 0x00, 0x01, 0x00, 0x0E, 0x00, 0x00, 0x01, 0x00, 0x05, 0x00, 0x01, 0x11, 0x08, 0x20, 0x00,
    0xF0, 0xF0, 0x00, 0x0F, 0x80, 0x00, 0x01, 0x00, 0x00, 0xFF,
];

/// The packet of the set that lists the second cue alone, and does not fill the region.
#[rattlefmt::skip]
const ONE_MORE_CUE: [u8; 79] = [
    0x00, 0x00, 0x01, 0xBD, 0x00, 0x49, 0x84, 0x80, 0x05, 0x21, 0x00, 0x09, 0x1E, 0xB1, 0x20, 0x00,
    0x0F, 0x10, 0x00, 0x01, 0x00, 0x08, 0x0C, 0x13, 0x00, 0xFF, 0x00, 0x00, 0x00, 0x00, 0x0F, 0x11,
    0x00, 0x01, 0x00, 0x10, 0x00, 0x17, 0x00, 0x04, 0x00, 0x01, 0x4B, 0x00, 0x00, 0x03, 0x00, 0x01,
    0x00, 0x00, 0xF0, 0x00, 0x0F, 0x13, 0x00, 0x01, 0x00, 0x0E, 0x00, 0x01, 0x03, 0x00, 0x05, 0x00,
    0x01, 0x11, 0x11, 0x34, 0x00, 0xF0, 0xF0, 0x00, 0x0F, 0x80, 0x00, 0x01, 0x00, 0x00, 0xFF,
];

/// The packet of the set that shows no region.
#[rattlefmt::skip]
const NO_REGION: [u8; 31] = [
    0x00, 0x00, 0x01, 0xBD, 0x00, 0x19, 0x84, 0x80, 0x05, 0x21, 0x00, 0x11, 0x3D, 0x61, 0x20, 0x00,
    0x0F, 0x10, 0x00, 0x01, 0x00, 0x02, 0x0C, 0x23, 0x0F, 0x80, 0x00, 0x01, 0x00, 0x00, 0xFF,
];

/// The packet of an acquisition point with an entry of a CLUT: version 0, entry 2 in the table of
/// four bits alone, and the colour in the full range.
#[rattlefmt::skip]
const WITH_CLUT: [u8; 104] = [
    0x00, 0x00, 0x01, 0xBD, 0x00, 0x62, 0x84, 0x80, 0x05, 0x21, 0x00, 0x05, 0xBF, 0x21, 0x20, 0x00,
    0x0F, 0x14, 0x00, 0x01, 0x00, 0x05, 0x07, 0x00, 0x03, 0x00, 0x00, 0x0F, 0x10, 0x00, 0x01, 0x00,
    0x08, 0x0C, 0x07, 0x00, 0xFF, 0x00, 0x00, 0x00, 0x00, 0x0F, 0x11, 0x00, 0x01, 0x00, 0x10, 0x00,
    0x0F, 0x00, 0x04, 0x00, 0x01, 0x4B, 0x00, 0x00, 0x03, 0x00, 0x00, 0x00, 0x00, 0xF0, 0x00, 0x0F,
    0x12, 0x00, 0x01, 0x00, 0x08, 0x00, 0x0F, 0x02, 0x5F, 0x51, 0xF0, 0x5A, 0xC0, 0x0F, 0x13, 0x00,
    0x01, 0x00, 0x0E, 0x00, 0x00, 0x01, 0x00, 0x05, 0x00, 0x01, 0x11, 0x08, 0x20, 0x00, 0xF0, 0xF0,
    0x00, 0x0F, 0x80, 0x00, 0x01, 0x00, 0x00, 0xFF,
];

/// A set that shows the region with one cue, which it sends.
fn set_with(
    alloc: Global,
    pts: u64,
    state: State,
    page_version: u8,
    cue: u32,
    cluts: Vec<SentClut>,
) -> Result<PlannedSet, NoMemory>
    requires time { pts < 2 ^ 33 }
    requires version { page_version < 16 }
    requires cue { cue < 2 }
    requires few { length cluts.items ≤ 1 }
    requires cluts { All (IsSendableClut sample) cluts.items }
    ensures { IfOk result (λ set. (set.epoch ≡ 0) × IsSendableIn sample set) }
{
    let region = SentRegion {
        id: 0,
        version: page_version,
        fill: state != State::Normal,
        cues: Items::new(alloc, vec![in alloc; cue]?),
    };
    Ok(PlannedSet {
        pts,
        state,
        row: 4,
        epoch: 0,
        page_version,
        shown: Items::new(alloc, vec![in alloc; 0u8]?),
        regions: Items::new(alloc, vec![in alloc; region]?),
        cluts: Items::new(alloc, cluts),
        cues: Items::new(alloc, vec![in alloc; cue]?),
    })
}

/// A set that shows no region.
fn empty_set(alloc: Global, pts: u64, page_version: u8) -> PlannedSet
    requires time { pts < 2 ^ 33 }
    requires version { page_version < 16 }
    ensures { (result.epoch ≡ 0) × IsSendableIn sample result }
{
    PlannedSet {
        pts,
        state: State::Normal,
        row: 4,
        epoch: 0,
        page_version,
        shown: Items::new(alloc, Vec::new(alloc)),
        regions: Items::new(alloc, Vec::new(alloc)),
        cluts: Items::new(alloc, Vec::new(alloc)),
        cues: Items::new(alloc, Vec::new(alloc)),
    }
}

/// The CLUT with the script's colour.
fn one_clut(alloc: Global) -> Result<Vec<SentClut>, NoMemory>
    ensures few { IfOk result (λ cluts. length cluts.items ≤ 1) }
    ensures each { IfOk result (λ cluts. All (IsSendableClut sample) cluts.items) }
{
    let rows = Items::new(alloc, vec![in alloc; 0u32]?);
    Ok(vec![in alloc;
        SentClut {
            clut: 0,
            version: 0,
            rows
        },
    ]?)
}

/// The packet of a set of the script.
fn packet_of<R: Abort>(rt: &R, alloc: Global, script: &Script, set: &PlannedSet) -> Vec<u8>
    requires epochs { script.now.epochs ≡ sample ∷ [] }
    requires set { (set.now.epoch ≡ 0) × IsSendableIn sample set.now }
{
    let load = load_of(alloc, script, set).expect(rt, "memory");
    same(rt, size_of(script, set), load.load.size);
    assert!(rt; load.longest <= UNIT_ROOM);
    let mut out = Vec::new(alloc);
    write_set(script, set, 1, &mut out).expect(rt, "memory");
    let kept = KeptBlocks::of_script(alloc, script).expect(rt, "memory");
    let again = kept.load_of(script, set).expect(rt, "memory");
    same(rt, again.load, load.load);
    same(rt, again.longest, load.longest);
    same(rt, again.units.as_slice(), load.units.as_slice());
    let mut twice = Vec::new(alloc);
    kept.write_set(script, set, 1, &mut twice)
        .expect(rt, "memory");
    same(rt, twice.as_slice(), out.as_slice());
    out
}

/// What a set of the script asks of a receiver.
fn load(alloc: Global, script: &Script, set: &PlannedSet) -> Result<SetLoad, NoMemory>
    requires epochs { script.now.epochs ≡ sample ∷ [] }
    requires set { (set.now.epoch ≡ 0) × IsSendableIn sample set.now }
{
    Ok(load_of(alloc, script, set)?.load)
}

#[test]
fn a_whole_page(rt: HostRuntime) {
    let alloc = rt.alloc();
    let script = script(&rt, alloc);
    let set = set_with(alloc, 90_000, State::ModeChange, 0, 0, Vec::new(alloc)).expect(
        &rt, "memory",
    );
    let wanted = SetLoad {
        pts: 90_000,
        size: 90,
        painted: 1,
    };
    same(
        &rt,
        load(alloc, &script, &set).expect(&rt, "memory"),
        wanted,
    );
    same(
        &rt,
        packet_of(&rt, alloc, &script, &set).as_slice(),
        WHOLE_PAGE.as_slice(),
    );
}

#[test]
fn one_more_cue(rt: HostRuntime) {
    let alloc = rt.alloc();
    let script = script(&rt, alloc);
    let set = set_with(alloc, 135_000, State::Normal, 1, 1, Vec::new(alloc)).expect(&rt, "memory");
    let packet = packet_of(&rt, alloc, &script, &set);
    same(&rt, packet.as_slice(), ONE_MORE_CUE.as_slice());
}

#[test]
fn a_page_without_regions(rt: HostRuntime) {
    let alloc = rt.alloc();
    let script = script(&rt, alloc);
    let set = empty_set(alloc, 270_000, 2);
    let wanted = SetLoad {
        pts: 270_000,
        size: 31,
        painted: 0,
    };
    same(
        &rt,
        load(alloc, &script, &set).expect(&rt, "memory"),
        wanted,
    );
    same(
        &rt,
        packet_of(&rt, alloc, &script, &set).as_slice(),
        NO_REGION.as_slice(),
    );
}

#[test]
fn an_entry_of_a_clut(rt: HostRuntime) {
    let alloc = rt.alloc();
    let script = script(&rt, alloc);
    let set = set_with(
        alloc,
        90_000,
        State::Acquisition,
        0,
        0,
        one_clut(alloc).expect(&rt, "memory"),
    )
    .expect(&rt, "memory");
    let packet = packet_of(&rt, alloc, &script, &set);
    same(&rt, packet.as_slice(), WITH_CLUT.as_slice());
}
