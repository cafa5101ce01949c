//! Small scripts, and the sets that their plans are to have.

use stream_syntax::State;

/// A region as a set is to send it: its number, version, fill and cues.
pub type WantedRegion = (u8, u8, bool, &'static [u32]);

/// A CLUT as a set is to send it: its number, version and rows.
pub type WantedClut = (u8, u8, &'static [u32]);

/// A set as it is to be.
#[derive(Drop)]
pub struct Wanted {
    pub pts: u64,
    pub state: State,
    pub row: u64,
    pub page_version: u8,
    pub shown: &'static [u8],
    pub regions: &'static [WantedRegion],
    pub cluts: &'static [WantedClut],
    pub cues: &'static [u32],
}

pub const THREE_CUES: &str = "origin,0
display,8,8
refresh,5
epoch,90000
region,0,0,0,8,8,4,0
picture,a,4,1,1,3
place,90000,360000,0,0,0,solid,a
place,180000,450000,0,1,0,solid,a
place,270000,450000,0,2,0,solid,a
";

/// Cues that come in are drawn on top; when one goes, all that are live are drawn anew.
pub const THREE_CUES_SETS: [Wanted; 5] = [
    Wanted {
        pts: 90_000,
        state: State::ModeChange,
        row: 4,
        page_version: 0,
        shown: &[0],
        regions: &[(0, 0, true, &[0])],
        cluts: &[],
        cues: &[0],
    },
    Wanted {
        pts: 180_000,
        state: State::Normal,
        row: 8,
        page_version: 1,
        shown: &[0],
        regions: &[(0, 1, false, &[1])],
        cluts: &[],
        cues: &[1],
    },
    Wanted {
        pts: 270_000,
        state: State::Normal,
        row: 9,
        page_version: 2,
        shown: &[0],
        regions: &[(0, 2, false, &[2])],
        cluts: &[],
        cues: &[2],
    },
    Wanted {
        pts: 360_000,
        state: State::Normal,
        row: 7,
        page_version: 3,
        shown: &[0],
        regions: &[(0, 3, true, &[1, 2])],
        cluts: &[],
        cues: &[1, 2],
    },
    Wanted {
        pts: 450_000,
        state: State::Normal,
        row: 8,
        page_version: 4,
        shown: &[],
        regions: &[],
        cluts: &[],
        cues: &[],
    },
];

pub const EMPTY_REGION: &str = "origin,0
display,8,8
refresh,2
epoch,90000
region,0,0,0,8,4,4,0
region,1,0,4,8,4,4,0
picture,a,4,1,1,3
place,90000,180000,0,0,0,solid,a
place,495000,585000,0,0,0,solid,a
place,90000,675000,1,0,0,solid,a
";

/// An acquisition point sends the region that is empty too. The one at 360,000 is a refresh, that
/// at 585,000 is due.
pub const EMPTY_REGION_SETS: [Wanted; 6] = [
    Wanted {
        pts: 90_000,
        state: State::ModeChange,
        row: 4,
        page_version: 0,
        shown: &[0, 1],
        regions: &[(0, 0, true, &[0]), (1, 0, true, &[2])],
        cluts: &[],
        cues: &[0, 2],
    },
    Wanted {
        pts: 180_000,
        state: State::Normal,
        row: 8,
        page_version: 1,
        shown: &[1],
        regions: &[],
        cluts: &[],
        cues: &[],
    },
    Wanted {
        pts: 360_000,
        state: State::Acquisition,
        row: 8,
        page_version: 1,
        shown: &[1],
        regions: &[(0, 0, true, &[]), (1, 0, true, &[2])],
        cluts: &[],
        cues: &[2],
    },
    Wanted {
        pts: 495_000,
        state: State::Normal,
        row: 9,
        page_version: 2,
        shown: &[0, 1],
        regions: &[(0, 1, true, &[1])],
        cluts: &[],
        cues: &[1],
    },
    Wanted {
        pts: 585_000,
        state: State::Acquisition,
        row: 9,
        page_version: 3,
        shown: &[1],
        regions: &[(0, 1, true, &[]), (1, 0, true, &[2])],
        cluts: &[],
        cues: &[2],
    },
    Wanted {
        pts: 675_000,
        state: State::Normal,
        row: 10,
        page_version: 4,
        shown: &[],
        regions: &[],
        cluts: &[],
        cues: &[],
    },
];

pub const COLOURS: &str = "origin,0
display,8,8
refresh,2
epoch,90000
region,9,0,4,8,4,4,0
region,3,0,0,8,4,4,0
colour,90000,0,4,3,81,240,90,255
colour,90000,0,2,1,81,240,90,255
colour,180000,0,4,3,145,34,54,255
colour,180000,1,8,255,41,110,240,255
colour,90000,0,4,3,16,128,128,255
picture,a,4,1,1,3
place,90000,600000,9,0,0,solid,a
place,180000,600000,3,0,0,through,a
";

/// Of two rows of an entry at a tick the second counts; a normal set sends the entries of its tick,
/// and an acquisition point all that are defined, by depth and entry. The page shows regions from
/// the top, and sends them by their numbers.
pub const COLOURS_SETS: [Wanted; 5] = [
    Wanted {
        pts: 90_000,
        state: State::ModeChange,
        row: 4,
        page_version: 0,
        shown: &[9],
        regions: &[(3, 0, true, &[]), (9, 0, true, &[0])],
        cluts: &[(0, 0, &[1, 4])],
        cues: &[0],
    },
    Wanted {
        pts: 180_000,
        state: State::Normal,
        row: 9,
        page_version: 1,
        shown: &[3, 9],
        regions: &[(3, 1, true, &[1])],
        cluts: &[(0, 1, &[2]), (1, 0, &[3])],
        cues: &[1],
    },
    Wanted {
        pts: 360_000,
        state: State::Acquisition,
        row: 9,
        page_version: 1,
        shown: &[3, 9],
        regions: &[(3, 1, true, &[1]), (9, 0, true, &[0])],
        cluts: &[(0, 1, &[1, 2]), (1, 0, &[3])],
        cues: &[0, 1],
    },
    Wanted {
        pts: 540_000,
        state: State::Acquisition,
        row: 9,
        page_version: 1,
        shown: &[3, 9],
        regions: &[(3, 1, true, &[1]), (9, 0, true, &[0])],
        cluts: &[(0, 1, &[1, 2]), (1, 0, &[3])],
        cues: &[0, 1],
    },
    Wanted {
        pts: 600_000,
        state: State::Normal,
        row: 13,
        page_version: 2,
        shown: &[],
        regions: &[],
        cluts: &[],
        cues: &[],
    },
];

pub const TWO_EPOCHS: &str = "origin,0
display,8,8
refresh,60
epoch,90000
region,0,0,0,8,8,4,0
colour,90000,0,4,3,81,240,90,255
picture,a,4,1,1,3
place,90000,180000,0,0,0,solid,a
place,180000,270000,0,0,0,solid,a
epoch,270000
region,0,0,0,8,8,4,0
place,270000,360000,0,0,0,solid,a
";

/// A new epoch begins anew: the versions of its regions and CLUTs, its cues and its colours are its
/// own. The version of the page goes on.
pub const TWO_EPOCHS_SETS: [Wanted; 4] = [
    Wanted {
        pts: 90_000,
        state: State::ModeChange,
        row: 4,
        page_version: 0,
        shown: &[0],
        regions: &[(0, 0, true, &[0])],
        cluts: &[(0, 0, &[0])],
        cues: &[0],
    },
    Wanted {
        pts: 180_000,
        state: State::Normal,
        row: 8,
        page_version: 1,
        shown: &[0],
        regions: &[(0, 1, true, &[1])],
        cluts: &[],
        cues: &[1],
    },
    Wanted {
        pts: 270_000,
        state: State::ModeChange,
        row: 9,
        page_version: 2,
        shown: &[0],
        regions: &[(0, 0, true, &[0])],
        cluts: &[],
        cues: &[0],
    },
    Wanted {
        pts: 360_000,
        state: State::Normal,
        row: 12,
        page_version: 3,
        shown: &[],
        regions: &[],
        cluts: &[],
        cues: &[],
    },
];

pub const SEE_THROUGH: &str = "origin,0
display,4,1
refresh,5
epoch,90000
region,0,0,0,4,1,4,0
picture,a,4,4,1,2222
picture,b,4,4,1,1134
place,90000,270000,0,0,0,solid,a
place,135000,270000,0,0,0,through,b
";

/// A cue that is seen through is drawn on top of the one that stays, without a fill.
pub const SEE_THROUGH_SETS: [Wanted; 3] = [
    Wanted {
        pts: 90_000,
        state: State::ModeChange,
        row: 4,
        page_version: 0,
        shown: &[0],
        regions: &[(0, 0, true, &[0])],
        cluts: &[],
        cues: &[0],
    },
    Wanted {
        pts: 135_000,
        state: State::Normal,
        row: 9,
        page_version: 1,
        shown: &[0],
        regions: &[(0, 1, false, &[1])],
        cluts: &[],
        cues: &[1],
    },
    Wanted {
        pts: 270_000,
        state: State::Normal,
        row: 8,
        page_version: 2,
        shown: &[],
        regions: &[],
        cluts: &[],
        cues: &[],
    },
];
