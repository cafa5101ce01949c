ghost use Rattle.std.specs.Prelude.{◌+◌, ◌<◌, ◌≤◌, length, Result, OnOk, OnErr, IfOk, IsErrOf};
ghost use Rattle.std.specs.Io.{ReadsAtMost, WritesAtMost};
ghost use Rattle.std.specs.Io.KnownBytes.{ReadConsumes, WriteAppends};
ghost use Rattle.sub_base.specs.Counts.{HasRisenPast, CountsOnOk};
ghost use Rattle.sub_base.specs.Endpoints.{Supplied, Received, HasReadFault, HasWriteFault, WasRead, WasReadInPart, Wrote, WrotePrefix};

use crate::buffer::zeros;
use crate::faults::{ReadAllFault, ReadFailed, WriteFailed};
use std::alloc::Global;

/// Where bytes come from: a file, or memory.
///
/// Contracts see what is left in it, where it tells that, a count of the bytes that it gave, and a
/// count of its faults. Both counts stay at 2^64 - 1 once they are there.
pub trait Source {
    /// What the source has left to give, where it tells that, and its counts of bytes and faults.
    ghost supplied: { Self → Supplied };

    /// Reads some of the next bytes into the first places of the buffer. 0 bytes into a buffer with
    /// room are the end.
    fn read(&mut self, buf: &mut [u8]) -> Result<usize, ReadFailed>
        ensures bound { ReadsAtMost result buf.new }
        ensures bytes { ReadConsumes (supplied self.old).left (supplied self.new).left result
            buf.new }
        ensures given { CountsOnOk (supplied self.old).given (supplied self.new).given result }
        ensures kept { (supplied self.old).faults ≤ (supplied self.new).faults }
        ensures cause { OnErr result (HasReadFault (supplied self.old) (supplied self.new)) };
}

/// Where bytes go: a file, standard output, or memory.
///
/// Contracts see what was written to it, where it tells that, and a count of its faults, which
/// stays at 2^64 - 1 once it is there.
pub trait Sink {
    /// What the sink has received, where it tells that, and its count of faults.
    ghost received: { Self → Received };

    /// Writes a prefix of the piece, of at least one byte where it has any.
    fn write(&mut self, piece: &[u8]) -> Result<usize, WriteFailed>
        ensures bound { WritesAtMost result piece.now }
        ensures some { IfOk result (λ n. 0 < length piece.now → 0 < n) }
        ensures bytes { WriteAppends (received self.old).written (received self.new).written result
            piece.now }
        ensures kept { (received self.old).faults ≤ (received self.new).faults }
        ensures cause { OnErr result (HasWriteFault (received self.old) (received self.new)) };
}

/// Writes all of the bytes. After a failure the sink has a prefix of them.
pub fn write_whole<K: Sink>(sink: &mut K, bytes: &[u8]) -> Result<(), WriteFailed>
    ensures all { OnOk result (Wrote (K.received sink.old) (K.received sink.new) bytes.now) }
    ensures prefix { OnErr result
        (WrotePrefix (K.received sink.old) (K.received sink.new) bytes.now) }
    ensures kept { (K.received sink.old).faults ≤ (K.received sink.new).faults }
    ensures cause { OnErr result (HasWriteFault (K.received sink.old) (K.received sink.new)) }
{
    let mut done = 0usize;
    while done < bytes.len() {
        // A sink takes at least one byte, so the loop ends.
        done += sink.write(&bytes[done..])?;
    }
    Ok(())
}

/// How many bytes one read asks for: at least 64 KiB, so that few calls reach the system.
const READ_SIZE: usize = 1 << 16;

/// Reads all that is left in the source, up to `limit` bytes.
pub fn read_all<A: Source>(
    alloc: Global,
    source: &mut A,
    limit: u64,
) -> Result<Vec<u8>, ReadAllFault>
    ensures whole { IfOk result
        (λ bytes. WasRead limit (A.supplied source.old) (A.supplied source.new) bytes.items) }
    ensures part { OnErr result (WasReadInPart (A.supplied source.old) (A.supplied source.new)) }
    ensures kept { (A.supplied source.old).faults ≤ (A.supplied source.new).faults }
    ensures read { IsErrOf result ReadAllFault.Read
        → HasReadFault (A.supplied source.old) (A.supplied source.new) }

    // That the limit was passed is answered exactly where the source gave more.
    ensures long { IsErrOf result ReadAllFault.TooLong
        → HasRisenPast limit (A.supplied source.old).given (A.supplied source.new).given }
    ensures not_long { ((A.supplied source.old).given + limit < (A.supplied source.new).given)
        → IsErrOf result ReadAllFault.TooLong }
{
    let mut bytes = Vec::new(alloc);
    let mut room = zeros(alloc, READ_SIZE)?;
    let buffer = room.as_mut_slice();
    loop {
        let count = match source.read(buffer) {
            Ok(count) => count,
            Err(ReadFailed) => return Err(ReadAllFault::Read),
        };
        if count == 0 {
            return Ok(bytes);
        }
        // Compared with what is left of the limit: the sum of both could pass 2^64.
        if count as u64 > limit - bytes.len() as u64 {
            return Err(ReadAllFault::TooLong);
        }
        bytes.extend_from_slice(&buffer[..count])?;
    }
}
