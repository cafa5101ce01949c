ghost use Rattle.std.specs.Prelude.{◌≡◌, ◌+◌, ◌<◌, ◌≤◌, ◌↔◌, [], length, take, drop, min, Some, IsErr, OnErr, IfOk};
ghost use Rattle.std.specs.Io.{ReadsAtMost, WritesAtMost};
ghost use Rattle.std.specs.Io.KnownBytes.{ReadConsumes, WriteAppends};
ghost use Rattle.sub_base.specs.Counts.{HasRisen, CountsOnOk, FaultsCount, counted};
ghost use Rattle.sub_base.specs.InMemory.{IsToFail, Supply, Store};

use crate::faults::{ReadFailed, WriteFailed};
use crate::transfer::{Sink, Source};
use std::alloc::Global;
use std::marker::Model;

/// Bytes in memory as a source, for tests: it gives up to a number of bytes a call, and fails at
/// given calls.
#[derive(Drop)]
pub struct MemSource {
    bytes: Vec<u8>,
    place: usize,
    most: usize,
    fails: Vec<u64>,
    calls: u64,
    given: u64,
    faults: u64,
}

impl Model for MemSource {
    ghost use Rattle.std.specs.Prelude.{drop, ◌≤◌, ◌<◌, vec_len};
    ghost use Rattle.sub_base.specs.InMemory.{Supply};

    ghost Value = { Supply };

    ghost view = { λ s. record {
      left = drop s.place s.bytes.items;
      most = s.most;
      fails = s.fails.items;
      calls = s.calls;
      given = s.given;
      faults = s.faults;
    } };

    ghost invariant = { λ s. (s.place ≤ vec_len s.bytes) × (0 < s.most) };
}

impl MemSource {
    /// A source of these bytes that gives at most `most` a call, and fails at the calls with the
    /// numbers `fails`, counted from 1. Takes no memory.
    pub fn make(_alloc: Global, bytes: Vec<u8>, most: usize, fails: Vec<u64>) -> MemSource
        requires { 1 ≤ most }
        ensures { result
            ≡ record {
              left = bytes.items;
              most = most;
              fails = fails.items;
              calls = 0;
              given = 0;
              faults = 0;
            } }
    {
        MemSource {
            bytes,
            place: 0,
            most,
            fails,
            calls: 0,
            given: 0,
            faults: 0,
        }
    }
}

impl Source for MemSource {
    ghost supplied = { λ s. record { left = Some s.left; given = s.given; faults = s.faults } };

    fn read(&mut self, buf: &mut [u8]) -> Result<usize, ReadFailed>
        ensures bound { ReadsAtMost result buf.new }
        ensures bytes { ReadConsumes (Some self.old.left) (Some self.new.left) result buf.new }
        ensures given { CountsOnOk self.old.given self.new.given result }
        ensures kept { self.old.faults ≤ self.new.faults }
        ensures cause { OnErr result (HasRisen self.old.faults self.new.faults) }

        // A call that succeeds leaves the count of faults, and one that fails raises it by one.
        ensures counted { FaultsCount self.old.faults self.new.faults result }

        // It fails at the listed calls, and at no other.
        ensures fails { IsErr result ↔ IsToFail self.old.fails self.old.calls }
        ensures counts { self.new.calls ≡ counted self.old.calls 1 }
        ensures same { (self.new.fails ≡ self.old.fails) × (self.new.most ≡ self.old.most) }
        ensures most { IfOk result
            (λ n. n ≡ min (min self.old.most (length buf.new)) (length self.old.left)) }
    {
        self.calls = self.calls.saturating_add(1);
        if self.fails.contains(&self.calls) {
            self.faults = self.faults.saturating_add(1);
            return Err(ReadFailed);
        }
        let count = give(&self.bytes[self.place..], self.most, buf);
        self.place += count;
        self.given = self.given.saturating_add(count as u64);
        Ok(count)
    }
}

/// Copies a prefix of what is left into the buffer, at most `most` bytes, and answers how many.
fn give(left: &[u8], most: usize, buf: &mut [u8]) -> usize
    ensures count { result ≡ min (min most (length buf.new)) (length left.now) }
    ensures front { take result buf.new ≡ take result left.now }
    ensures room { length buf.new ≡ length buf.old }
{
    let count = most.min(buf.len()).min(left.len());
    buf[..count].copy_from_slice(&left[..count]);
    count
}

/// A sink in memory, for tests: it takes up to a number of bytes a call, and fails at given calls.
#[derive(Drop)]
pub struct MemSink {
    taken: Vec<u8>,
    most: usize,
    fails: Vec<u64>,
    calls: u64,
    faults: u64,
}

impl Model for MemSink {
    ghost use Rattle.std.specs.Prelude.{◌<◌};
    ghost use Rattle.sub_base.specs.InMemory.{Store};

    ghost Value = { Store };

    ghost view = { λ s. record {
      written = s.taken.items;
      most = s.most;
      fails = s.fails.items;
      calls = s.calls;
      faults = s.faults;
    } };

    ghost invariant = { λ s. 0 < s.most };
}

impl MemSink {
    /// An empty sink that takes at most `most` bytes a call, and fails at the calls with the
    /// numbers `fails`, counted from 1. Takes no memory.
    pub fn make(alloc: Global, most: usize, fails: Vec<u64>) -> MemSink
        requires { 1 ≤ most }
        ensures { result
            ≡ record { written = []; most = most; fails = fails.items; calls = 0; faults = 0 } }
    {
        MemSink {
            taken: Vec::new(alloc),
            most,
            fails,
            calls: 0,
            faults: 0,
        }
    }

    /// What was written so far.
    pub fn written(&self) -> &[u8]
        ensures { result.now ≡ self.now.written }
    {
        self.taken.as_slice()
    }
}

impl Sink for MemSink {
    ghost received = { λ s. record { written = Some s.written; faults = s.faults } };

    fn write(&mut self, piece: &[u8]) -> Result<usize, WriteFailed>
        ensures bound { WritesAtMost result piece.now }
        ensures some { IfOk result (λ n. 0 < length piece.now → 0 < n) }
        ensures bytes { WriteAppends (Some self.old.written) (Some self.new.written) result
            piece.now }
        ensures kept { self.old.faults ≤ self.new.faults }
        ensures cause { OnErr result (HasRisen self.old.faults self.new.faults) }

        // A call that succeeds leaves the count of faults, and one that fails raises it by one.
        ensures counted { FaultsCount self.old.faults self.new.faults result }

        // It fails at the listed calls, and else only where what was written has to grow and finds
        // no memory.
        ensures fails { IsToFail self.old.fails self.old.calls → IsErr result }
        ensures counts { self.new.calls ≡ counted self.old.calls 1 }
        ensures same { (self.new.fails ≡ self.old.fails) × (self.new.most ≡ self.old.most) }
        ensures most { IfOk result (λ n. n ≡ min self.old.most (length piece.now)) }
    {
        self.calls = self.calls.saturating_add(1);
        let count = self.most.min(piece.len());
        if self.fails.contains(&self.calls)
            || self.taken.extend_from_slice(&piece[..count]).is_err()
        {
            self.faults = self.faults.saturating_add(1);
            return Err(WriteFailed);
        }
        Ok(count)
    }
}
