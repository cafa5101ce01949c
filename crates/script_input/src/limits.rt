/// How many bytes a script has at the most, and a font.
pub const TEXT_LIMIT: u64 = 67_108_864;
