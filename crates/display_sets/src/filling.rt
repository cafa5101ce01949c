//! The segments of a set put together, up to its end.

ghost use Rattle.std.specs.Prelude.{◌≡◌, ◌+◌, ◌≤◌, true, List, ◌++◌, length, vec_capacity};
ghost use Rattle.stream_syntax.specs.DataField.{Frame, segment as whole_segment};
ghost use Rattle.decoder_model.specs.Received.{IsFramed};
ghost use Rattle.display_sets.specs.Counted.{counted_in};
ghost use Rattle.display_sets.specs.Filling.{Adds, AreOpen, Fills, GrowsOpen};
ghost use Rattle.sub_base.specs.Lists.{has_some};

use crate::counted::next_counted;
use decoder_model::{Pages, SetFault};
use stream_syntax::END_OF_DISPLAY_SET;

/// What more segments make of an open set.
#[derive(Clone, Copy)]
pub(crate) enum Filled {
    /// Its end has not come.
    Open,
    /// It has ended, and is refused where there is a fault.
    Ended { fault: Option<SetFault> },
}

/// Puts what counts in a data field behind the bytes of an open set, up to the set's end. Behind a
/// fault the bytes mean nothing.
pub(crate) fn fill(pages: Pages, coded: u32, bytes: &mut Vec<u8>, field: &[u8]) -> Filled
    requires room { coded ≤ vec_capacity bytes.old }
    requires within { length bytes.old.items ≤ coded }
    requires counted { has_some (counted_in pages field.now) ≡ true }
    ensures room { coded ≤ vec_capacity bytes.new }
    ensures within { length bytes.new.items ≤ coded }
    ensures grows { GrowsOpen bytes.old.items bytes.new.items result }
    ensures fills { (front : List Frame) → AreOpen coded front bytes.old.items
        → Fills coded front (counted_in pages field.now) bytes.new.items result }
{
    let mut rest = field;
    while let Some(next) = next_counted(pages, rest) {
        let front = match next {
            Ok(front) => front,
            Err(fault) => return Filled::refused(SetFault::Segment(fault)),
        };
        let filled = add(coded, bytes, front.segment);
        if !filled.is_open() {
            return filled;
        }
        rest = front.rest;
    }
    Filled::Open
}

/// Puts one segment behind the bytes of an open set.
fn add(coded: u32, bytes: &mut Vec<u8>, segment: &[u8]) -> Filled
    requires room { coded ≤ vec_capacity bytes.old }
    requires within { length bytes.old.items ≤ coded }
    requires framed { IsFramed segment.now }
    ensures room { coded ≤ vec_capacity bytes.new }
    ensures within { length bytes.new.items ≤ coded }
    ensures grows { GrowsOpen bytes.old.items bytes.new.items result }
    ensures adds { (front : List Frame) → AreOpen coded front bytes.old.items
        → Adds coded front (whole_segment segment.now) bytes.new.items result }
{
    let size = bytes.len() as u64 + segment.len() as u64;
    if size > u64::from(coded) {
        return Filled::refused(SetFault::SetTooLong { size });
    }
    append(bytes, segment);
    if segment[1] == END_OF_DISPLAY_SET {
        Filled::Ended { fault: None }
    } else {
        Filled::Open
    }
}

/// Puts bytes behind others, in room that is there.
fn append(bytes: &mut Vec<u8>, more: &[u8])
    requires { length bytes.old.items + length more.now ≤ vec_capacity bytes.old }
    ensures items { bytes.new.items ≡ bytes.old.items ++ more.now }
    ensures room { vec_capacity bytes.old ≤ vec_capacity bytes.new }
{
    bytes.extend_from_slice(more).unwrap();
}

impl Filled {
    ghost use Rattle.std.specs.Prelude.{◌≡◌, Some};
    ghost use Rattle.display_sets.specs.declared.filling.Filled.TheVariants.{Ended};
    ghost use Rattle.display_sets.specs.Private.Hands.{is_still_open};

    /// The set ends with this fault.
    fn refused(fault: SetFault) -> Filled
        ensures { result ≡ Ended (Some fault) }
    {
        Filled::Ended { fault: Some(fault) }
    }

    /// Whether the end of the set has not come.
    fn is_open(&self) -> bool
        ensures { result ≡ is_still_open self.now }
    {
        matches!(self, Filled::Open)
    }
}
