ghost use Rattle.std.specs.Prelude.{◌≡◌, ℕ, ◌+◌, ◌^◌, ◌<◌, ◌≤◌, ◌++◌, replicate, OnOk};
ghost use Rattle.stream_syntax.specs.PixelCodes.{bits, bits_of};
ghost use Rattle.pixel_codes.specs.Lists.{Extends};

use sub_base::NoMemory;

/// The bits of a string that do not fill four bytes yet, as a number.
#[derive(Drop)]
pub(crate) struct Pending {
    pub(crate) value: u64,
    pub(crate) count: u32,
    ghost few: { count < 32 },
    ghost fits: { value < 2 ^ count },
}

impl Pending {
    ghost use Rattle.pixel_codes.specs.Private.Stream.{stream};

    /// No bits.
    pub(crate) fn none() -> Pending
        ensures value { result.value ≡ 0 }
        ensures count { result.count ≡ 0 }
    {
        Pending { value: 0, count: 0 }
    }

    /// Puts the low `width` bits of a number behind the bits so far, and four bytes that are full
    /// at the end of `out`.
    #[inline(always)]
    pub(crate) fn push(&mut self, value: u32, width: u32, out: &mut Vec<u8>) -> Result<(), NoMemory>
        requires width { width ≤ 24 }
        requires value { value < 2 ^ width }
        ensures text { OnOk result
            (stream out.new.items self.new ≡ stream out.old.items self.old ++ bits width value) }
        ensures extends { Extends out.old.items out.new.items }
    {
        let all = (self.value << width) + u64::from(value);
        let count = self.count + width;
        // Four bytes are put out at once: runs of text take few bits, and a call on the vector for
        // each byte costs more.
        if count < 32 {
            self.value = all;
            self.count = count;
            return Ok(());
        }
        let rest = count - 32;
        let word = (all >> rest) as u32;
        out.extend_from_slice(&word.to_be_bytes())?;
        self.value = all % (1 << rest);
        self.count = rest;
        Ok(())
    }

    /// Writes what is left, the last byte filled with bits 0.
    pub(crate) fn finish(self, out: &mut Vec<u8>) -> Result<(), NoMemory>
        ensures text { OnOk result
            ((fill : ℕ) × (fill < 8)
            × (bits_of out.new.items ≡ stream out.old.items self ++ replicate fill 0)) }
        ensures extends { Extends out.old.items out.new.items }
    {
        let mut value = self.value;
        let mut count = self.count;
        while count >= 8 {
            count -= 8;
            out.push((value >> count) as u8)?;
            value %= 1 << count;
        }
        if count > 0 {
            out.push((value << (8 - count)) as u8)?;
        }
        Ok(())
    }
}
