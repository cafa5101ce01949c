ghost use Rattle.std.specs.Prelude.{◌≡◌, ℕ, ◌*◌, ◌∷◌, ◌==◌, ◌<◌, ◌≤◌, true, false, List, length, All, IfOk, IfSome, unwrap_or};
ghost use Rattle.std.specs.Option.{option_to_list};
ghost use Rattle.page_epoch.specs.SentCluts.{row_at, clut_with as with_rows_of, rows_from, defined_rows as defined_rows_of, is_changed as is_changed_at};
ghost use Rattle.page_epoch.specs.Private.Changes.{AreChanges};
ghost use Rattle.page_epoch.specs.EpochStates.{clut_after, changed_versions, IsSmallVersion, sent_of, row_nodes};
ghost use Rattle.page_epoch.specs.Needs.{clut_nodes};

use crate::clut_changes::{Change, ClutChanges, changes_by};
use crate::clut_rows::rows_of_tick;
use crate::planned_set::SentClut;
use crate::region_state::push_some;
use cue_list::ColourRow;
use std::alloc::{AllocError, Global};
use sub_base::Items;

/// A CLUT at the next instant, as its set sends it, and its nodes.
#[derive(Drop)]
pub struct ClutStep {
    /// Its version, none before its first change.
    pub version: Option<u8>,
    /// What the set sends of it, if anything.
    pub sent: Option<SentClut>,
    /// The nodes that it takes in a receiver.
    pub nodes: u64,
}

/// The CLUTs of an epoch at the next instant, those that its set sends, and their nodes.
#[derive(Drop)]
pub struct ClutSteps {
    /// The versions of all CLUTs of the layout, in its order.
    pub versions: Items<Option<u8>>,
    /// Those that the set sends.
    pub sent: Items<SentClut>,
    /// The nodes that all of them take in a receiver.
    pub nodes: u64,
}

/// A CLUT with these rows, where there are some.
fn clut_with(clut: u8, version: u8, rows: Items<u32>) -> Option<SentClut>
    ensures { option_to_list result ≡ with_rows_of clut version rows }
{
    if rows.len() == 0 {
        return None;
    }
    Some(SentClut {
        clut,
        version,
        rows,
    })
}

/// The nodes of a CLUT with so many rows.
fn nodes_of(rows: &[u32]) -> u64
    requires { length rows.now ≤ 276 }
    ensures value { result ≡ row_nodes rows.now }
    ensures few { result ≤ 277 }
{
    if rows.is_empty() {
        0
    } else {
        // A node for the CLUT, and one for each entry that is set.
        1 + rows.len() as u64
    }
}

/// The rows that a set at a tick sends of a CLUT, whose last change by then is given.
fn sent_rows(
    alloc: Global,
    colours: &[ColourRow],
    whole: bool,
    tick: u64,
    change: &Change,
) -> Result<Items<u32>, AllocError>
    requires within { All (λ place. place < length colours.now) change.now.rows }
    requires others { (change.now.tick == tick) ≡ false
        → All (λ place. ((row_at colours.now place).tick == tick) ≡ false) change.now.rows }
    ensures { IfOk result (λ sent. sent ≡ rows_from colours.now whole tick change.now.rows) }
{
    if whole {
        // A receiver that begins here knows of no entry.
        return Ok(Items::new(alloc, Vec::from_slice(alloc, change.rows.as_slice())?));
    }
    // A normal set sends what changed at its own tick: the set of an earlier change has sent that.
    if change.tick != tick {
        return Ok(Items::new(alloc, Vec::new(alloc)));
    }
    rows_of_tick(alloc, colours, change.rows.as_slice(), tick)
}

/// The version of a CLUT one instant on, where it has one.
fn next_version(changed: bool, version: Option<u8>) -> Option<u8>
    requires { IfSome version (λ version. version < 16) }
    ensures { result ≡ clut_after changed version }
{
    match version {
        // A CLUT that is sent again has the version of before, so that a receiver that has it keeps
        // it.
        _ if !changed => version,
        None => Some(0),
        Some(version) => Some((version + 1) % 16),
    }
}

/// Takes a CLUT to the next instant.
fn step_clut(
    alloc: Global,
    colours: &[ColourRow],
    clut: &ClutChanges,
    version: Option<u8>,
    tick: u64,
    whole: bool,
) -> Result<ClutStep, AllocError>
    requires changes { AreChanges colours.now clut.now }
    requires small { IsSmallVersion version }
    ensures version { IfOk result
        (λ step. step.version
        ≡ clut_after (is_changed_at colours.now clut.now.clut tick) version) }
    ensures small { IfOk result (λ step. IsSmallVersion step.version) }
    ensures sent { IfOk result
        (λ step. option_to_list step.sent
        ≡ with_rows_of clut.now.clut (unwrap_or step.version 0)
        (rows_from colours.now whole tick (defined_rows_of colours.now clut.now.clut tick))) }
    ensures nodes { IfOk result
        (λ step. step.nodes ≡ row_nodes (defined_rows_of colours.now clut.now.clut tick)) }
    ensures few { IfOk result (λ step. step.nodes ≤ 277) }
{
    let changes = clut.changes.as_slice();
    let count = changes_by(changes, tick);
    if count == 0 {
        return Ok(ClutStep {
            version,
            sent: None,
            nodes: 0,
        });
    }
    let change = &changes[count - 1];
    let next = next_version(change.tick == tick, version);
    let sent = sent_rows(alloc, colours, whole, tick, change)?;
    Ok(ClutStep {
        version: next,
        sent: clut_with(clut.clut, next.unwrap_or(0), sent),
        nodes: nodes_of(change.rows.as_slice()),
    })
}

/// Takes the CLUTs of an epoch to the next instant.
pub fn step_cluts(
    alloc: Global,
    colours: &[ColourRow],
    cluts: &[ClutChanges],
    versions: &[Option<u8>],
    tick: u64,
    whole: bool,
) -> Result<ClutSteps, AllocError>
    requires changes { All (AreChanges colours.now) cluts.now }
    requires few { length cluts.now ≤ 256 }
    requires long { length versions.now ≡ length cluts.now }
    requires small { All IsSmallVersion versions.now }
    ensures versions { (seen : List ℕ)
        → versions.now ≡ changed_versions colours.now seen cluts.now
        → IfOk result
        (λ steps. steps.versions ≡ changed_versions colours.now (tick ∷ seen) cluts.now) }
    ensures sent { (seen : List ℕ)
        → versions.now ≡ changed_versions colours.now seen cluts.now
        → IfOk result
        (λ steps. steps.sent ≡ sent_of colours.now whole (tick ∷ seen) cluts.now) }
    ensures nodes { (seen : List ℕ)
        → versions.now ≡ changed_versions colours.now seen cluts.now
        → IfOk result
        (λ steps. steps.nodes
        ≡ clut_nodes (sent_of colours.now true (tick ∷ seen) cluts.now)) }
    ensures long { IfOk result (λ steps. length steps.versions ≡ length cluts.now) }
    ensures small { IfOk result (λ steps. All IsSmallVersion steps.versions) }
    ensures few { IfOk result (λ steps. steps.nodes ≤ 277 * 256) }
{
    let mut next = Vec::new(alloc);
    let mut sent = Vec::new(alloc);
    let mut nodes = 0;
    for (i, clut) in cluts.iter().enumerate() {
        let step = step_clut(alloc, colours, clut, versions[i], tick, whole)?;
        next.push(step.version)?;
        push_some(&mut sent, step.sent)?;
        nodes += step.nodes;
    }
    Ok(ClutSteps {
        versions: Items::new(alloc, next),
        sent: Items::new(alloc, sent),
        nodes,
    })
}
