ghost use Rattle.std.specs.Prelude.{◌≡◌, ◌+◌, ◌^◌, ◌<◌, ◌≤◌, List, [], ◌∷◌, IfOk};
ghost use Rattle.sub_base.specs.Pace.{pace_of, tick_of, IsSending};
ghost use Rattle.sub_base.specs.declared.profile.TheConstants.{LARGEST_BUFFER};
ghost use Rattle.buffer_model.specs.Calls.{Call, Arrived, SetWhole, Dropped, done_of, measured, greatest};
ghost use Rattle.buffer_model.specs.Calls.{first_breach_of, last_slot};
ghost use Rattle.buffer_model.specs.Ticks.{by_ticks as pace_by_ticks};
ghost use Rattle.buffer_model.specs.Meters.{IsMeterOf};

use crate::breach::Breach;
use crate::waiting::{MOST_WAITING, Waiting, held, hold};
use std::alloc::Global;
use std::marker::Model;
use sub_base::{NoMemory, Pace, Profile, SetLoad};

/// A meter of the coded data buffer, by the packets that arrive and what becomes of their bytes.
#[derive(Drop)]
pub struct Levels {
    pace: Pace,
    waiting: Vec<Waiting>,
    pending: u64,
    last: u64,
    shown: u64,
    peak: u64,
    full: Option<u64>,
    breach: Option<Breach>,
}

impl Model for Levels {
    ghost use Rattle.std.specs.Prelude.{◌≤◌, vec_capacity};
    ghost use Rattle.buffer_model.specs.declared.waiting.TheConstants.{MOST_WAITING};
    ghost use Rattle.buffer_model.specs.Meters.{Meter, IsMeter};

    ghost Value = { Meter };

    ghost view = { λ l. record {
      pace = l.pace;
      waiting = l.waiting.items;
      pending = l.pending;
      last = l.last;
      shown = l.shown;
      peak = l.peak;
      full = l.full;
      breach = l.breach;
    } };

    ghost invariant = { λ l. IsMeter
        (record {
          pace = l.pace;
          waiting = l.waiting.items;
          pending = l.pending;
          last = l.last;
          shown = l.shown;
          peak = l.peak;
          full = l.full;
          breach = l.breach;
        })
        × (MOST_WAITING ≤ vec_capacity l.waiting) };
}

impl Levels {
    /// An empty buffer of a profile with a step, whose slot 0 is at the origin, a tick of 90 kHz.
    /// All memory is taken here: 4 MiB.
    pub fn make(alloc: Global, profile: &Profile, origin: u64) -> Result<Levels, NoMemory>
        requires profile { IsSending profile.now }
        requires origin { origin < 2 ^ 62 }
        ensures stands { IfOk result (IsMeterOf []) }
        ensures pace { IfOk result (λ meter. meter.pace ≡ pace_of origin profile.now) }
        ensures last { IfOk result (λ meter. meter.last ≡ 0) }
    {
        Levels::of(alloc, Pace::of(origin, profile))
    }

    /// An empty buffer of a profile, with or without a step, to which packets come by the tick:
    /// slot s is at tick s of 90 kHz. All memory is taken here: 4 MiB.
    pub fn by_ticks(alloc: Global, profile: &Profile) -> Result<Levels, NoMemory>
        requires coded { profile.now.coded ≤ LARGEST_BUFFER }
        ensures stands { IfOk result (IsMeterOf []) }
        ensures pace { IfOk result (λ meter. meter.pace ≡ pace_by_ticks profile.now) }
        ensures last { IfOk result (λ meter. meter.last ≡ 0) }
    {
        Levels::of(
            alloc,
            Pace {
                origin: 0,
                step: 1,
                coded: profile.coded,
            },
        )
    }

    /// An empty buffer to which packets come at that pace.
    fn of(alloc: Global, pace: Pace) -> Result<Levels, NoMemory>
        requires coded { pace.coded ≤ LARGEST_BUFFER }
        requires origin { pace.origin < 2 ^ 62 }
        ensures stands { IfOk result (IsMeterOf []) }
        ensures pace { IfOk result (λ meter. meter.pace ≡ pace) }
        ensures last { IfOk result (λ meter. meter.last ≡ 0) }
    {
        Ok(Levels {
            pace,
            waiting: Vec::with_capacity(alloc, MOST_WAITING)?,
            pending: 0,
            last: 0,
            shown: 0,
            peak: 0,
            full: None,
            breach: None,
        })
    }

    /// A packet arrives in that slot, with that many bytes; more than one may arrive in a slot.
    /// Answers the level there, or after a breach of the coded data buffer the breaching level.
    pub fn arrive(&mut self, slot: u64, bytes: u64) -> u64
        requires after { self.old.last ≤ slot }
        requires tick { tick_of self.old.pace slot < 2 ^ 63 }
        requires bytes { bytes ≤ 65536 }
        ensures stands { (past : List Call) → IsMeterOf past self.old
            → IsMeterOf (Arrived slot bytes ∷ past) self.new }
        ensures level { (past : List Call) → IsMeterOf past self.old
            → result ≡ measured self.old.pace slot bytes past }
        ensures last { self.new.last ≡ slot }
        ensures pace { self.new.pace ≡ self.old.pace }
    {
        self.last = slot;
        // Behind a breach levels have no meaning: the breaching one is answered from then on.
        match self.full {
            Some(level) => level,
            None => {
                let level = self.pending + bytes + held(&self.waiting, self.pace.tick(slot));
                self.pending += bytes;
                self.peak = self.peak.max(level);
                if level > self.pace.coded {
                    self.full = Some(level);
                    self.breach = self.breach.or(Some(Breach::Coded { slot, level }));
                }
                level
            }
        }
    }

    /// The bytes that arrived since the last set or drop are this set. Answers the tick at which it
    /// is done; then they leave.
    pub fn set_whole(&mut self, load: SetLoad) -> u64
        requires pts { load.pts < 2 ^ 62 }
        requires size { load.size < 2 ^ 62 }
        requires painted { load.painted < 2 ^ 62 }
        ensures stands { (past : List Call) → IsMeterOf past self.old
            → IsMeterOf (SetWhole load ∷ past) self.new }
        ensures done { (past : List Call) → IsMeterOf past self.old
            → result ≡ done_of self.old.pace load past }
        ensures last { self.new.last ≡ self.old.last }
        ensures pace { self.new.pace ≡ self.old.pace }
    {
        let now = self.pace.tick(self.last);
        let done = load.done(now, self.shown);
        if done > load.pts {
            self.breach = self.breach.or(Some(Breach::Late {
                done,
                pts: load.pts,
            }));
        }
        self.shown = load.pts;
        // Behind a breach only times are looked at.
        if self.full.is_none() {
            hold(&mut self.waiting, now, done, self.pending);
            self.pending = 0;
        }
        done
    }

    /// The bytes that arrived since the last set or drop leave now.
    pub fn drop_unit(&mut self)
        ensures stands { (past : List Call) → IsMeterOf past self.old
            → IsMeterOf (Dropped ∷ past) self.new }
        ensures last { self.new.last ≡ self.old.last }
        ensures pace { self.new.pace ≡ self.old.pace }
    {
        self.pending = 0;
    }

    /// The tick of the slot of the last packet, or that of slot 0 before the first.
    pub fn tick(&self) -> u64
        ensures { (past : List Call) → IsMeterOf past self.now
            → result ≡ tick_of self.now.pace (last_slot past) }
    {
        self.pace.tick(self.last)
    }

    /// The greatest level. After a breach of the coded data buffer it is the breaching level.
    pub fn peak(&self) -> u64
        ensures { (past : List Call) → IsMeterOf past self.now
            → result ≡ greatest self.now.pace past }
    {
        self.peak
    }

    /// The first breach, in the order of the calls.
    pub fn first_breach(&self) -> Option<Breach>
        ensures { (past : List Call) → IsMeterOf past self.now
            → result ≡ first_breach_of self.now.pace past }
    {
        self.breach
    }
}
