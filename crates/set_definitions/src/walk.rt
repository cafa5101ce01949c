//! The segments of a display set, which stand one after the other.

ghost use Rattle.std.specs.Prelude.{◌≡◌, ◌<◌, ◌∷◌, [], IfSome, List, None, length, ℕ};
ghost use Rattle.display_sets.specs.Filling.{AreBytes};
ghost use Rattle.set_definitions.specs.Definitions.{begins_epoch};

use crate::definition::is_mode_change;
use segments::read_frame;

/// The bytes of the first of the segments, and those behind it. `None` where there is no segment.
pub fn first_segment(bytes: &[u8]) -> Option<(&[u8], &[u8])>
    ensures none { result ≡ None → (segments : List (List ℕ)) → AreBytes segments bytes.now
        → segments ≡ [] }
    ensures first { IfSome result (λ parts.
        (segments : List (List ℕ)) → AreBytes segments bytes.now
        → (rest : List (List ℕ)) × (segments ≡ parts.0.now ∷ rest) × AreBytes rest parts.1.now) }
    ensures shorter { IfSome result (λ parts. length parts.1.now < length bytes.now) }
{
    let Ok(frame) = read_frame(bytes) else {
        return None;
    };
    Some(bytes.split_at(frame.whole))
}

/// Whether one of the segments is a page of the state mode change: an epoch begins then.
pub fn is_new_epoch(bytes: &[u8]) -> bool
    ensures { (segments : List (List ℕ)) → AreBytes segments bytes.now
        → result ≡ begins_epoch segments }
{
    let mut rest = bytes;
    while let Some((segment, behind)) = first_segment(rest) {
        if is_mode_change(segment) {
            return true;
        }
        rest = behind;
    }
    false
}
