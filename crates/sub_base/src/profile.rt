ghost use Rattle.std.specs.Prelude.{◌≡◌};
ghost use Rattle.sub_base.specs.Profile.{IsProfile, profile_of};
ghost use Rattle.sub_base.specs.declared.profile.ProfileName.{ProfileName};

/// The bytes of the largest coded data buffer of a profile.
pub const LARGEST_BUFFER: u64 = 262_144;

/// The shortest time from one packet's slot to the next in a profile, in ticks of 90 kHz.
pub const SHORTEST_STEP: u64 = 90;

/// The longest time from one packet's slot to the next in a profile, in ticks of 90 kHz.
pub const LONGEST_STEP: u64 = 705;

/// The names of the receiver profiles.
#[derive(Clone, Copy, Debug, PartialEq, Eq)]
pub enum ProfileName {
    /// Standard definition: displays of up to 720 by 576 pixels.
    Sd,
    /// High definition: displays of up to 1,920 by 1,080 pixels.
    Hd,
    /// Displays of up to 4,096 by 2,304 pixels. For reading alone: it has no pace at which packets
    /// are sent.
    Wide,
    /// High definition, with the buffers of `Wide`.
    Large,
}

/// What a receiver of a profile has: this project's numbers, since EN 300 743 leaves most of them
/// open.
#[derive(Clone, Copy, Debug, PartialEq, Eq)]
pub struct Profile {
    /// The coded data buffer, in bytes.
    pub coded: u64,
    /// The pixel buffer, in bytes of packed pixels.
    pub pixels: u64,
    /// The composition memory, in nodes.
    pub nodes: u32,
    /// The ticks of 90 kHz from one packet's slot to the next; none where the profile only reads.
    pub step: Option<u64>,
    /// The greatest width of a display, in pixels.
    pub width: u32,
    /// The greatest height of a display, in pixels.
    pub height: u32,
}

impl Profile {
    /// The profile of that name.
    pub fn of(name: ProfileName) -> Profile
        ensures { result ≡ profile_of name }
    {
        match name {
            ProfileName::Sd => Profile {
                coded: 24_576,
                pixels: 81_920,
                nodes: 512,
                step: Some(705),
                width: 720,
                height: 576,
            },
            ProfileName::Hd => Profile {
                coded: 61_440,
                pixels: 327_680,
                nodes: 2_048,
                step: Some(360),
                width: 1_920,
                height: 1_080,
            },
            ProfileName::Wide => Profile {
                coded: 262_144,
                pixels: 4_194_304,
                nodes: 8_192,
                step: None,
                width: 4_096,
                height: 2_304,
            },
            ProfileName::Large => Profile {
                coded: 262_144,
                pixels: 4_194_304,
                nodes: 8_192,
                step: Some(90),
                width: 1_920,
                height: 1_080,
            },
        }
    }
}

/// What holds of every profile: laws that need no more hold of a further one.
pub fn every_profile()
    ensures { (name : ProfileName) → IsProfile (profile_of name) }
{}
