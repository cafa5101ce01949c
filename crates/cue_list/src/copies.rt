ghost use Rattle.std.specs.Prelude.{◌≡◌, IfOk};

use crate::epoch::Epoch;
use std::alloc::Global;
use sub_base::{Items, NoMemory};

/// The same items, in memory of their own.
fn items_copy<T: Copy>(alloc: Global, items: &Items<T>) -> Result<Items<T>, NoMemory>
    ensures { IfOk result (λ copy. copy ≡ items.now) }
{
    let mut copies = Vec::new(alloc);
    copies.extend_from_slice(items.as_slice())?;
    Ok(Items::new(alloc, copies))
}

/// The same epoch, in memory of its own.
pub(crate) fn epoch_copy(alloc: Global, epoch: &Epoch) -> Result<Epoch, NoMemory>
    ensures { IfOk result (λ copy. copy ≡ epoch.now) }
{
    Ok(Epoch {
        start: epoch.start,
        row: epoch.row,
        regions: items_copy(alloc, &epoch.regions)?,
        colours: items_copy(alloc, &epoch.colours)?,
        cues: items_copy(alloc, &epoch.cues)?,
    })
}

/// The same epoch, where there is one, in memory of its own.
pub(crate) fn last_copy(alloc: Global, epoch: &Option<Epoch>) -> Result<Option<Epoch>, NoMemory>
    ensures { IfOk result (λ copy. copy ≡ epoch.now) }
{
    match epoch {
        None => Ok(None),
        Some(epoch) => Ok(Some(epoch_copy(alloc, epoch)?)),
    }
}

/// The same epochs, in memory of their own.
pub(crate) fn epochs_copy(alloc: Global, epochs: &[Epoch]) -> Result<Vec<Epoch>, NoMemory>
    ensures { IfOk result (λ copies. copies.items ≡ epochs.now) }
{
    let mut copies = Vec::new(alloc);
    for epoch in epochs {
        copies.push(epoch_copy(alloc, epoch)?)?;
    }
    Ok(copies)
}
