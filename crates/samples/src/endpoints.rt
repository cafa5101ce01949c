ghost use Rattle.std.specs.Prelude.{◌≡◌, ◌≤◌, [], ◌∷◌, ◌++◌, flat_map, IfOk};

use std::alloc::Global;
use sub_base::{MemSink, MemSource, NoMemory};

/// A source of these bytes, which gives at most `most` a read and fails at the read of that number;
/// 0 for none.
pub fn source_of(
    alloc: Global,
    bytes: &[u8],
    most: usize,
    bad_read: u64,
) -> Result<MemSource, NoMemory>
    requires { 1 ≤ most }
    ensures { IfOk result (λ source. source
        ≡ record {
          left = bytes.now;
          most = most;
          fails = bad_read ∷ [];
          calls = 0;
          given = 0;
          faults = 0;
        }) }
{
    let bytes = Vec::from_slice(alloc, bytes)?;
    Ok(MemSource::make(alloc, bytes, most, vec![in alloc; bad_read]?))
}

/// A source of these packets and of some bytes behind them, which gives at most `most` bytes a read
/// and fails at the read of that number; 0 for none.
pub fn source_of_packets(
    alloc: Global,
    packets: &[[u8; 188]],
    behind: &[u8],
    most: usize,
    bad_read: u64,
) -> Result<MemSource, NoMemory>
    requires { 1 ≤ most }
    ensures { IfOk result (λ source. source
        ≡ record {
          left = flat_map (λ packet. packet) packets.now ++ behind.now;
          most = most;
          fails = bad_read ∷ [];
          calls = 0;
          given = 0;
          faults = 0;
        }) }
{
    let mut bytes = Vec::new(alloc);
    for packet in packets {
        bytes.extend_from_slice(packet)?;
    }
    bytes.extend_from_slice(behind)?;
    source_of(alloc, bytes.as_slice(), most, bad_read)
}

/// An empty sink, which takes at most `most` bytes a write and fails at the write of that number; 0
/// for none.
pub fn sink_of(alloc: Global, most: usize, bad_write: u64) -> Result<MemSink, NoMemory>
    requires { 1 ≤ most }
    ensures { IfOk result (λ sink. sink
        ≡ record { written = []; most = most; fails = bad_write ∷ []; calls = 0; faults = 0 }) }
{
    Ok(MemSink::make(alloc, most, vec![in alloc; bad_write]?))
}
