ghost use Rattle.std.specs.Prelude.{◌≡◌, ◌*◌, ◌<◌, length, IfSome};
ghost use Rattle.sub_base.specs.Depth.{code_count};
ghost use Rattle.string_painting.specs.Codes.{codes_in_byte};
ghost use Rattle.string_painting.specs.Private.Reading.{field_at};

use crate::packing::{code, codes_over, whole_bytes};
use sub_base::Depth;

/// Field `place` of a string, which has as many bits as the depth has; none behind the last byte.
#[inline(always)]
#[tactic(auto, unfolding(crate::specs::Private::Reading::field_at))]
pub(crate) fn field(bytes: &[u8], place: usize, depth: Depth) -> Option<u8>
    ensures value { result ≡ field_at depth bytes.now place }
    ensures inside { IfSome result
        (λ number. (number < code_count depth) × (place < codes_in_byte depth * length bytes.now)) }
{
    let index = whole_bytes(depth, place);
    if bytes.len() <= index {
        return None;
    }
    Some(code(depth, bytes[index], codes_over(depth, place)))
}
