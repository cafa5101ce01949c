ghost use Rattle.std.specs.Prelude.{◌≡◌, ℕ, ◌+◌, ◌≤◌, All, sum_by, filter, nat_lt, vec_capacity};
ghost use Rattle.buffer_model.specs.declared.waiting.TheConstants.{MOST_WAITING};
ghost use Rattle.buffer_model.specs.Meters.{held as held_bytes, held_of};

use sub_base::LARGEST_BUFFER;

/// As many sets as can wait in the coded data buffer of any profile at the most: each has at least
/// one of its bytes. A meter keeps room for so many, 16 bytes for each.
pub const MOST_WAITING: usize = LARGEST_BUFFER as usize;

/// A set that is whole and may wait in the buffer until it is done.
#[derive(Clone, Copy, Debug)]
pub struct Waiting {
    /// The tick at which it is done.
    pub done: u64,
    /// Its bytes.
    pub bytes: u64,
}

/// The bytes of the sets that are not done by that tick.
pub fn held(waiting: &[Waiting], tick: u64) -> u64
    requires { sum_by (λ set. set.bytes) waiting.now ≤ MOST_WAITING }
    ensures { result ≡ held_bytes tick waiting.now }
{
    let mut bytes = 0;
    for set in waiting {
        if set.done > tick {
            bytes += set.bytes;
        }
    }
    bytes
}

/// Forgets the sets that are done by that tick.
fn forget_done(waiting: &mut Vec<Waiting>, tick: u64)
    ensures items { waiting.new.items ≡ filter (λ set. nat_lt tick set.done) waiting.old.items }
    ensures capacity { vec_capacity waiting.new ≡ vec_capacity waiting.old }
{
    waiting.retain(|set| set.done > tick);
}

/// At that tick, with the sets that are done by it forgotten, a set of that many bytes waits until
/// it is done.
pub fn hold(waiting: &mut Vec<Waiting>, tick: u64, done: u64, bytes: u64)
    requires room { MOST_WAITING ≤ vec_capacity waiting.old }
    requires some { All (λ set. 1 ≤ set.bytes) waiting.old.items }
    requires level { bytes + held_bytes tick waiting.old.items ≤ MOST_WAITING }
    ensures room { MOST_WAITING ≤ vec_capacity waiting.new }
    ensures some { All (λ set. 1 ≤ set.bytes) waiting.new.items }
    ensures bytes { sum_by (λ set. set.bytes) waiting.new.items ≤ MOST_WAITING }
    ensures held { (later : ℕ) → tick ≤ later
        → held_bytes later waiting.new.items
        ≡ held_bytes later waiting.old.items
        + held_of later (record { done = done; bytes = bytes }) }
{
    forget_done(waiting, tick);
    // Each set that waits has a byte in the buffer, so that the room for them is enough.
    if bytes > 0 {
        waiting.push_reserved(Waiting { done, bytes });
    }
}
