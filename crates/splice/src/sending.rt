//! The PES packets in which a display set is sent.

ghost use Rattle.std.specs.Prelude.{◌≡◌, ◌+◌, ◌-◌, ◌≤◌, ◌<◌, ◌^◌, ◌++◌, IfOk, List, OnOk, length, map, true, ℕ};
ghost use Rattle.std.specs.List.{concat};
ghost use Rattle.display_sets.specs.Filling.{AreBytes};
ghost use Rattle.pes_packets.specs.declared.units.TheConstants.{OTHER_BYTES};
ghost use Rattle.sub_base.specs.declared.load.TheConstants.{UNIT_ROOM};
ghost use Rattle.sent_sets.specs.RawSets.{RawSet, raw_packet};
ghost use Rattle.splice.specs.Private.Sendings.{AreCutTo, IsGreatest, IsSendingOf, packet_at};

use crate::segment_walk::segment_lengths;
use pes_packets::{OTHER_BYTES, unit_lengths, write_unit};
use std::alloc::Global;
use stream_syntax::TIME_ROUND;
use sub_base::{NoMemory, UNIT_ROOM};

/// How a set is sent.
#[derive(Drop)]
pub(crate) struct Sending {
    /// The bytes of its longest segment.
    pub longest: u64,
    /// The bytes of each of its PES packets.
    pub units: Vec<u32>,
    /// Those of all of them.
    pub size: u64,
    /// The PES packets, one after the other, where each segment has room in one.
    pub bytes: Vec<u8>,
}

/// How a set at that tick with these segments is sent.
pub(crate) fn sending_of(alloc: Global, time: u64, segments: &[u8]) -> Result<Sending, NoMemory>
    requires short { length segments.now < 2 ^ 32 }
    ensures { IfOk result (λ sending. (set : RawSet) → set.time ≡ time
        → AreBytes set.segments segments.now → 1 ≤ length set.segments
        → IsSendingOf set sending) }
{
    let lengths = segment_lengths(alloc, segments)?;
    let longest = longest_of(lengths.as_slice());
    let mut units = Vec::new(alloc);
    unit_lengths(lengths.as_slice(), &mut units)?;
    let size = segments.len() as u64 + OTHER_BYTES * units.len() as u64;
    let bytes = units_where(
        alloc,
        longest <= UNIT_ROOM,
        time,
        units.as_slice(),
        segments,
    )?;
    Ok(Sending {
        longest,
        units,
        size,
        bytes,
    })
}

/// The greatest of the lengths.
fn longest_of(lengths: &[u32]) -> u64
    ensures { IsGreatest lengths.now result }
{
    let mut longest = 0u64;
    for length in lengths {
        longest = longest.max(u64::from(*length));
    }
    longest
}

/// The PES packets of these lengths, with that time, of the segments, where they fit; and else
/// nothing.
fn units_where(
    alloc: Global,
    fit: bool,
    time: u64,
    lengths: &[u32],
    segments: &[u8],
) -> Result<Vec<u8>, NoMemory>
    ensures { IfOk result (λ bytes. fit ≡ true
        → (units : List (List (List ℕ))) → AreCutTo segments.now lengths.now units
        → bytes.items ≡ concat (map (raw_packet time) units)) }
{
    let mut bytes = Vec::new(alloc);
    if fit {
        append_units(time % TIME_ROUND, lengths, segments, &mut bytes)?;
    }
    Ok(bytes)
}

/// Appends a PES packet for each unit of these lengths, whose segments have the bytes that are
/// next.
fn append_units(
    time: u64,
    lengths: &[u32],
    segments: &[u8],
    out: &mut Vec<u8>,
) -> Result<(), NoMemory>
    requires time { time < 2 ^ 33 }
    ensures { OnOk result ((units : List (List (List ℕ))) → AreCutTo segments.now lengths.now units
        → out.new.items ≡ out.old.items ++ concat (map (packet_at time) units)) }
{
    let mut left = segments;
    for length in lengths {
        let (unit, behind) = left.split_at(segment_bytes(*length, left.len()));
        write_unit(time, unit, out)?;
        left = behind;
    }
    Ok(())
}

/// How many bytes of segments a PES packet of that length has, of so many that are left. No PES
/// packet has room for more than `UNIT_ROOM`.
fn segment_bytes(length: u32, left: usize) -> usize
    ensures inside { result ≤ left }
    ensures fits { result ≤ UNIT_ROOM }
    ensures exact { length ≤ OTHER_BYTES + left → length ≤ OTHER_BYTES + UNIT_ROOM
        → result ≡ length - OTHER_BYTES }
{
    let bytes = (length as usize).saturating_sub(OTHER_BYTES as usize);
    bytes.min(left).min(UNIT_ROOM as usize)
}
