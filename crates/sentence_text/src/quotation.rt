ghost use Rattle.std.specs.Prelude.{◌≡◌, ◌≤◌, ◌<◌, length};
ghost use Rattle.sentence_text.specs.Quotation.{cut_of, is_control_at as is_control_at_of, is_high_control as is_high_control_of, is_within as is_within_of, shown_at as shown_at_of};

/// How many bytes of a record or line are quoted at the most.
pub(crate) const MOST_QUOTED: usize = 120;

/// How many of the bytes are quoted: all, or as many as there is room for without a part of a
/// character.
pub(crate) fn cut(bytes: &[u8]) -> usize
    ensures cut { result ≡ cut_of bytes.now }
    ensures within { result ≤ length bytes.now }
{
    if bytes.len() <= MOST_QUOTED {
        bytes.len()
    } else if !is_within(bytes[MOST_QUOTED]) {
        MOST_QUOTED
    } else if !is_within(bytes[MOST_QUOTED - 1]) {
        MOST_QUOTED - 1
    } else if !is_within(bytes[MOST_QUOTED - 2]) {
        MOST_QUOTED - 2
    } else {
        MOST_QUOTED - 3
    }
}

/// Whether the byte stands within a character of UTF-8, behind its first byte.
fn is_within(byte: u8) -> bool
    ensures { result ≡ is_within_of byte }
{
    byte >= 0x80 && byte < 0xC0
}

/// A byte as it is quoted: a terminal is sent no control characters.
pub(crate) fn shown_at(bytes: &[u8], place: usize) -> u8
    requires { place < length bytes.now }
    ensures { result ≡ shown_at_of bytes.now place }
{
    if is_control_at(bytes, place) {
        b'.'
    } else {
        bytes[place]
    }
}

/// Whether a byte is a control character of ASCII, or one of the two bytes that U+0080 to U+009F
/// have in UTF-8: some terminals obey these too.
fn is_control_at(bytes: &[u8], place: usize) -> bool
    requires { place < length bytes.now }
    ensures { result ≡ is_control_at_of bytes.now place }
{
    let byte = bytes[place];
    if byte == HIGH_CONTROLS {
        place + 1 < bytes.len() && is_high_control(bytes[place + 1])
    } else if is_high_control(byte) {
        place > 0 && bytes[place - 1] == HIGH_CONTROLS
    } else {
        byte < b' ' || byte == 0x7F
    }
}

/// The first byte of U+0080 to U+00BF in UTF-8.
const HIGH_CONTROLS: u8 = 0xC2;

/// Whether the byte is the second one of U+0080 to U+009F.
fn is_high_control(byte: u8) -> bool
    ensures { result ≡ is_high_control_of byte }
{
    byte >= 0x80 && byte < 0xA0
}
