use std::sync::atomic::{AtomicBool, Ordering};

/// Whether a flag is seen to be up, in at most 100,000,000 turns.
pub fn is_seen(flag: &AtomicBool) -> bool {
    for _ in 0..100_000_000 {
        if flag.load(Ordering::SeqCst) {
            return true;
        }
    }
    false
}
