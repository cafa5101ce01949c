ghost use Rattle.std.specs.Prelude.{◌≡◌, ◌+◌, ◌*◌, ◌^◌, ◌<◌, ◌≤◌, length, IfSome};
ghost use Rattle.stream_syntax.specs.PixelCodes.{bits_of};
ghost use Rattle.code_strings.specs.Reading.{field_at};

/// The number in `width` bits from bit `place` on, the highest first; none where the bytes end
/// before.
#[inline(always)]
pub(crate) fn field(bytes: &[u8], place: usize, width: usize) -> Option<u8>
    requires bytes { length bytes.now ≤ 65535 }
    requires place { place ≤ 8 * length bytes.now }
    requires narrow { (1 ≤ width) × (width ≤ 8) }
    ensures value { result ≡ field_at (bits_of bytes.now) place width }
    ensures inside { IfSome result
        (λ number. (number < 2 ^ width) × (place + width ≤ 8 * length bytes.now)) }
{
    if bytes.len() * 8 < place + width {
        return None;
    }
    let at = place / 8;
    let high = bytes[at];
    let low = bytes.get(at + 1).copied().unwrap_or(0);
    // Eight bits at the most are asked for, so that they lie in two bytes.
    let window = u32::from(high) * 256 + u32::from(low);
    let below = 16 - place % 8 - width;
    Some(((window >> below) % (1 << width)) as u8)
}
