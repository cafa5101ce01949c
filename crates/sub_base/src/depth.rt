ghost use Rattle.std.specs.Prelude.{◌≡◌};
ghost use Rattle.sub_base.specs.Depth.{bits_of, code_count as codes_of};

/// The bits of a pixel code: how many colours a region or a picture can have (EN 300 743, region
/// composition segment, region_depth).
#[derive(Clone, Copy, Debug, PartialEq, Eq)]
pub enum Depth {
    /// 2 bits, 4 colours.
    Two,
    /// 4 bits, 16 colours.
    Four,
    /// 8 bits, 256 colours.
    Eight,
}

impl Depth {
    /// How many bits a pixel code has.
    pub fn bits(self) -> u8
        ensures { result ≡ bits_of self }
    {
        match self {
            Depth::Two => 2,
            Depth::Four => 4,
            Depth::Eight => 8,
        }
    }

    /// How many pixel codes, and so entries of a CLUT, there are.
    pub fn code_count(self) -> u16
        ensures { result ≡ codes_of self }
    {
        match self {
            Depth::Two => 4,
            Depth::Four => 16,
            Depth::Eight => 256,
        }
    }
}
