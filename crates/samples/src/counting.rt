ghost use Rattle.std.specs.Prelude.{None, ◌≡◌, ◌<◌};

use sub_base::{ReadFailed, Source};

/// A source of so many bytes, each the same. It counts them and holds none, and tells nothing of
/// what is left. No call of it fails.
#[derive(Drop)]
pub struct Counting {
    left: u64,
    byte: u8,
    given: u64,
}

impl Counting {
    /// A source that gives so many bytes.
    pub fn new(left: u64, byte: u8) -> Counting
        ensures none_given { result.given ≡ 0 }
        ensures all_left { result.left ≡ left }
        ensures byte { result.byte ≡ byte }
    {
        Counting {
            left,
            byte,
            given: 0,
        }
    }
}

impl Source for Counting {
    ghost supplied = { λ s. record { left = None; given = s.given; faults = 0 } };

    fn read(&mut self, buf: &mut [u8]) -> Result<usize, ReadFailed> {
        let count = buf.len().min(self.left as usize);
        buf[..count].fill(self.byte);
        self.left -= count as u64;
        self.given = self.given.saturating_add(count as u64);
        Ok(count)
    }
}
