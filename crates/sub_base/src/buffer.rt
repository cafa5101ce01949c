ghost use Rattle.std.specs.Prelude.{◌≡◌, All, IfOk, vec_len};

use std::alloc::{AllocError, Global};

/// A buffer of that many bytes, each 0.
pub fn zeros(alloc: Global, size: usize) -> Result<Vec<u8>, AllocError>
    ensures size { IfOk result (λ buffer. vec_len buffer ≡ size) }
    ensures zero { IfOk result (λ buffer. All (λ byte. byte ≡ 0) buffer.items) }
{
    // In a function of its own: with a size that is written out, proofs see a list of so many
    // zeros.
    vec![in alloc; 0u8; size]
}
