//! What becomes of a set that is kept.

ghost use Rattle.std.specs.Prelude.{◌≡◌, IfErr, IfOk, List};
ghost use Rattle.std.specs.Option.{is_some};
ghost use Rattle.sub_base.specs.declared.profile.Profile.{Profile};
ghost use Rattle.decoder_model.specs.Kept.{epoch_of};
ghost use Rattle.decoder_model.specs.Readings.{Content, Reading};
ghost use Rattle.decoder_model.specs.Received.{AreRead};
ghost use Rattle.page_core.specs.Private.Accepted.{IsAccepted, IsEarly};
ghost use Rattle.page_core.specs.declared.epoch.Start.TheVariants.{Waits};

use crate::epoch::{Start, start_of};
use crate::seen::{Found, scan};
use decoder_model::{SetEnd, SetFault};
use segments::PageSeg;

/// A set that belongs to an epoch: what it has, its page, and what it is for the epoch.
#[derive(Drop)]
pub(crate) struct Accepted<'a> {
    pub found: Found<'a>,
    pub page: PageSeg<'a>,
    pub start: Start,
}

/// Tests a kept set up to the tests by its epoch; the answer for a set that is broken by itself, or
/// that waits.
pub(crate) fn accept(known: bool, bytes: &[u8]) -> Result<Accepted<'_>, SetEnd>
    ensures accepted { (profile : Profile) (sets : List (List Content)) (readings : List Reading)
        → known ≡ is_some (epoch_of sets) → AreRead readings bytes.now
        → IsAccepted profile sets readings bytes.now result }
    ensures early { IfErr result IsEarly }
    ensures start { IfOk result (λ accepted. accepted.start ≡ Waits → ⊥) }
{
    let found = match scan(bytes) {
        Ok(found) => found,
        Err(fault) => return Err(SetEnd::Broken(fault)),
    };
    let Some(page) = found.page else {
        return Err(SetEnd::Broken(SetFault::NoPage));
    };
    match start_of(known, page.state) {
        Start::Waits => Err(SetEnd::Waiting),
        start => Ok(Accepted { found, page, start }),
    }
}
