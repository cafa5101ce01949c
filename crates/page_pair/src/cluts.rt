ghost use Rattle.std.specs.Prelude.{◌≡◌, All, IfOk, map};
ghost use Rattle.std.specs.List.{list_any};
ghost use Rattle.std.specs.Str.{bytes_eq};
ghost use Rattle.page_epoch.specs.Sendable.{IsSendableClut};
ghost use Rattle.set_coder.specs.Usable.{IsUsable};
ghost use Rattle.page_pair.specs.Private.Writing.{clut_bytes as bytes_of};

use cue_list::Epoch;
use page_epoch::SentClut;
use set_coder::append_clut;
use std::alloc::Global;
use sub_base::{Items, NoMemory};

/// The bytes of CLUTs, each for page 0: by them those of two languages are compared.
pub(crate) fn clut_bytes(
    alloc: Global,
    epoch: &Epoch,
    cluts: &[SentClut],
) -> Result<Vec<Items<u8>>, NoMemory>
    requires usable { IsUsable epoch.now }
    requires each { All (IsSendableClut epoch.now) cluts.now }
    ensures { IfOk result (λ bytes. bytes.items ≡ map (bytes_of epoch.now) cluts.now) }
{
    let mut all = Vec::new(alloc);
    for sent in cluts {
        all.push(bytes_of_clut(alloc, epoch, sent)?)?;
    }
    Ok(all)
}

fn bytes_of_clut(alloc: Global, epoch: &Epoch, sent: &SentClut) -> Result<Items<u8>, NoMemory>
    requires usable { IsUsable epoch.now }
    requires sent { IsSendableClut epoch.now sent.now }
    ensures { IfOk result (λ bytes. bytes ≡ bytes_of epoch.now sent.now) }
{
    let mut bytes = Vec::new(alloc);
    append_clut(epoch, 0, sent, &mut bytes)?;
    Ok(Items::new(alloc, bytes))
}

/// Whether bytes are among these.
#[tactic(auto, using(crate::proofs::ClutLaws::any_here, crate::proofs::ClutLaws::any_next, crate::proofs::ClutLaws::any_none))]
pub(crate) fn has_bytes(cluts: &[Items<u8>], clut: &[u8]) -> bool
    ensures { result ≡ list_any (bytes_eq clut.now) cluts.now }
{
    for one in cluts {
        if clut == one.as_slice() {
            return true;
        }
    }
    false
}
