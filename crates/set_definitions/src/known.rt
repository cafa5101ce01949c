//! What was defined last of each thing.

ghost use Rattle.std.specs.Prelude.{◌≡◌, ◌<◌, ℕ, IfOk, All, length, slice_index_or, vec_len};
ghost use Rattle.set_definitions.specs.Knowing.{never_told, said_by};
ghost use Rattle.set_definitions.specs.declared.definition.TheConstants.{NAMES as names};

use crate::definition::{Definition, NAMES, Said};
use std::alloc::Global;
use std::marker::Model;
use sub_base::NoMemory;

/// What was told last of a thing, and the stamp of the epoch in which that was.
#[derive(Clone, Copy)]
pub(crate) struct Told {
    pub stamp: u64,
    pub said: Said,
}

/// Of a thing of which nothing was told.
const NEVER: Told = Told {
    stamp: 0,
    said: Said {
        version: 0,
        size: 0,
        check: 0,
    },
};

/// What the last definition of each thing says that an epoch has defined. An epoch is forgotten by
/// counting on.
#[derive(Drop)]
pub struct Known {
    told: Vec<Told>,
    stamp: u64,
}

impl Model for Known {
    ghost use Rattle.set_definitions.specs.Knowing.{IsKnowledge, Knowledge};

    ghost Value = { Knowledge };

    ghost view = { λ k. record { told = k.told.items; stamp = k.stamp } };

    ghost invariant = { λ k. IsKnowledge (record { told = k.told.items; stamp = k.stamp }) };
}

impl Known {
    ghost use Rattle.std.specs.Prelude.{◌≡◌, ◌<◌, [], IfOk};
    ghost use Rattle.set_definitions.specs.Knowing.{Knows, Learns, said_at};
    ghost use Rattle.set_definitions.specs.declared.definition.TheConstants.{NAMES};

    /// Nothing is known. All memory is taken here.
    pub fn make(alloc: Global) -> Result<Known, NoMemory>
        ensures nothing { IfOk result (λ known. Knows known []) }
    {
        Ok(Known {
            told: nothing_told(alloc)?,
            stamp: 1,
        })
    }

    /// What the last definition of that thing says, where the epoch has one.
    pub fn last(&self, name: usize) -> Option<Said>
        requires { name < NAMES }
        ensures { result ≡ said_at self.now name }
    {
        said_in(self.told[name], self.stamp)
    }

    /// A definition more.
    pub fn learn(&mut self, definition: Definition)
        requires { definition.name < NAMES }
        ensures { Learns self.old self.new definition }
    {
        self.told[definition.name] = Told {
            stamp: self.stamp,
            said: definition.said,
        };
    }

    /// The epoch is over: nothing is known.
    pub fn forget(&mut self)
        ensures { Knows self.new [] }
    {
        if self.stamp < u64::MAX {
            self.stamp += 1;
        } else {
            sweep(&mut self.told);
            self.stamp = 1;
        }
    }
}

/// Takes all away that was told, with the stamps of all epochs.
fn sweep(told: &mut [Told])
    ensures whole { length told.new ≡ length told.old }
    ensures swept { (name : ℕ) → name < length told.old
        → slice_index_or told.new name never_told ≡ never_told }
{
    told.fill(NEVER);
}

/// What was told, where that was in the epoch with this stamp.
fn said_in(told: Told, stamp: u64) -> Option<Said>
    ensures { result ≡ said_by stamp told }
{
    if told.stamp == stamp {
        Some(told.said)
    } else {
        None
    }
}

/// A place for each thing, of which nothing was told.
fn nothing_told(alloc: Global) -> Result<Vec<Told>, NoMemory>
    ensures whole { IfOk result (λ told. vec_len told ≡ names) }
    ensures past { IfOk result (λ told. All (λ one. one.stamp ≡ 0) told.items) }
{
    let mut told = Vec::new(alloc);
    told.reserve(NAMES)?;
    for _ in 0..NAMES {
        told.push(NEVER)?;
    }
    Ok(told)
}
