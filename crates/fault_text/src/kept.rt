//! The bytes of a set's segments, kept while the set is taken.

ghost use Rattle.std.specs.Prelude.{◌≡◌, option_map};
ghost use Rattle.display_sets.specs.Lent.{lent};
ghost use Rattle.fault_text.specs.Faulting.{bytes_ready};

use display_sets::Ready;
use std::alloc::Global;
use std::marker::Model;
use sub_base::{NoMemory, zeros};

/// Room for the bytes of the segments of a set.
#[derive(Drop)]
pub(crate) struct KeptSet {
    room: Vec<u8>,
    length: usize,
}

impl Model for KeptSet {
    ghost use Rattle.std.specs.Prelude.{◌≤◌, take, vec_len};
    ghost use Rattle.fault_text.specs.Faulting.{Keeping};

    ghost Value = { Keeping };

    ghost view = { λ k. record { room = vec_len k.room; bytes = take k.length k.room.items } };

    ghost invariant = { λ k. k.length ≤ vec_len k.room };
}

impl KeptSet {
    ghost use Rattle.std.specs.Prelude.{◌≡◌, ◌+◌, ◌≤◌, ◌++◌, [], IfOk, length, option_map};
    ghost use Rattle.display_sets.specs.Lent.{lent};
    ghost use Rattle.fault_text.specs.Faulting.{bytes_ready, fitting};

    /// Room for so many bytes. All memory is taken here.
    pub(crate) fn make(alloc: Global, room: usize) -> Result<KeptSet, NoMemory>
        ensures { IfOk result (λ kept. kept.room ≡ room) }
    {
        Ok(KeptSet {
            room: zeros(alloc, room)?,
            length: 0,
        })
    }

    /// Keeps the segments of a set that is ready, where there is room for them.
    pub(crate) fn keep(&mut self, ready: Option<Ready<'_>>)
        ensures kept { self.new.bytes
            ≡ fitting self.old.room (bytes_ready (option_map lent ready.entry)) }
        ensures room { self.new.room ≡ self.old.room }
    {
        self.copy(segments_of(ready));
    }

    /// Keeps bytes, where there is room for them.
    fn copy(&mut self, bytes: &[u8])
        ensures kept { self.new.bytes ≡ fitting self.old.room bytes.now }
        ensures room { self.new.room ≡ self.old.room }
    {
        self.clear();
        if self.room.len() < bytes.len() {
            return;
        }
        self.push(bytes);
    }

    /// Keeps nothing.
    fn clear(&mut self)
        ensures { self.new ≡ record { room = self.old.room; bytes = [] } }
    {
        self.length = 0;
    }

    /// Keeps bytes behind those that are kept.
    fn push(&mut self, bytes: &[u8])
        requires { length self.old.bytes + length bytes.now ≤ self.old.room }
        ensures { self.new
            ≡ record { room = self.old.room; bytes = self.old.bytes ++ bytes.now } }
    {
        let end = self.length + bytes.len();
        self.room[self.length..end].copy_from_slice(bytes);
        self.length = end;
    }

    /// The bytes that are kept.
    pub(crate) fn as_bytes(&self) -> &[u8]
        ensures { result.now ≡ self.now.bytes }
    {
        &self.room[..self.length]
    }
}

/// The bytes of the segments of a set; none of one that is refused.
fn segments_of(ready: Option<Ready<'_>>) -> &[u8]
    ensures { result.now ≡ bytes_ready (option_map lent ready.entry) }
{
    match ready {
        None => &[],
        Some(ready) => match ready.segments {
            Ok(bytes) => bytes,
            Err(_) => &[],
        },
    }
}
