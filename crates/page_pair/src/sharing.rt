ghost use Rattle.std.specs.Prelude.{◌≡◌, ◌≤◌, IfOk, drop, length, map};
ghost use Rattle.page_pair.specs.PairSets.{is_same_flag, is_same_object as is_same, names_of, shared_objects as shared_of};
ghost use Rattle.page_pair.specs.Private.Objects.{Shares, WasFound};

use crate::set_object::SetObject;
use std::alloc::Global;
use sub_base::NoMemory;

/// The number of the first object that two languages share: above the places of all cues.
pub(crate) const FIRST_SHARED: u16 = 32_768;

/// The cues whose objects two languages share, in order: each object of the second language with
/// the first equal one of the first language behind all that are shared so far.
#[tactic(auto, using(crate::proofs::SharingLaws::shared_step, crate::proofs::SharingLaws::shared_few, crate::proofs::SharingLaws::shared_all))]
pub(crate) fn shared_objects(
    alloc: Global,
    one: &[SetObject<'_>],
    two: &[SetObject<'_>],
) -> Result<Vec<(u16, u16)>, NoMemory>
    ensures pairs { IfOk result (λ pairs. pairs.items ≡ shared_of one.now two.now) }
    ensures few { IfOk result (λ pairs. length pairs.items ≤ length two.now) }
{
    let mut pairs = Vec::new(alloc);
    let mut from = 0;
    for object in two {
        from = share_one(object, one, from, &mut pairs)?;
    }
    Ok(pairs)
}

/// Shares an object of the second language with the first equal one of the first language from a
/// place on, if there is one, and answers the place behind it.
#[tactic(auto, using(crate::proofs::SharingLaws::shares_none))]
fn share_one(
    object: &SetObject<'_>,
    one: &[SetObject<'_>],
    from: usize,
    pairs: &mut Vec<(u16, u16)>,
) -> Result<usize, NoMemory>
    requires { from ≤ length one.now }
    ensures within { IfOk result (λ next. next ≤ length one.now) }
    ensures shares { IfOk result (λ next. Shares object.now (drop from one.now)
        pairs.old.items pairs.new.items (drop next one.now)) }
{
    let (_, rest) = one.split_at(from);
    match find_same(object, rest) {
        None => Ok(from),
        Some(at) => {
            let other = &rest[at];
            pairs.push((other.cue, object.cue))?;
            Ok(from + at + 1)
        }
    }
}

/// Where the first object stands that is equal to this one but for the page and the number.
#[tactic(auto, using(crate::proofs::SharingLaws::found_here, crate::proofs::SharingLaws::found_next, crate::proofs::SharingLaws::found_none))]
fn find_same(object: &SetObject<'_>, others: &[SetObject<'_>]) -> Option<usize>
    ensures { WasFound (λ other. is_same other object.now) others.now result }
{
    for at in 0..others.len() {
        if is_same_object(&others[at], object) {
            return Some(at);
        }
    }
    None
}

/// Whether two objects are equal but for the page and the number.
fn is_same_object(one: &SetObject<'_>, two: &SetObject<'_>) -> bool
    ensures { result ≡ is_same one.now two.now }
{
    let (top, bottom) = one.fields();
    let (other_top, other_bottom) = two.fields();
    has_same_flag(one.see_through, two.see_through) && top == other_top && bottom == other_bottom
}

/// Whether two flags are the same.
pub(crate) fn has_same_flag(one: bool, two: bool) -> bool
    ensures { result ≡ is_same_flag one two }
{
    if one { two } else { !two }
}

/// The cues of the first language whose objects are shared.
pub(crate) fn first_cues(alloc: Global, pairs: &[(u16, u16)]) -> Result<Vec<u16>, NoMemory>
    ensures { IfOk result (λ cues. cues.items ≡ map (λ pair. pair.0) pairs.now) }
{
    let mut cues = Vec::with_capacity(alloc, pairs.len())?;
    for pair in pairs {
        cues.push(pair.0)?;
    }
    Ok(cues)
}

/// The cues of the second language whose objects are shared.
pub(crate) fn second_cues(alloc: Global, pairs: &[(u16, u16)]) -> Result<Vec<u16>, NoMemory>
    ensures { IfOk result (λ cues. cues.items ≡ map (λ pair. pair.1) pairs.now) }
{
    let mut cues = Vec::with_capacity(alloc, pairs.len())?;
    for pair in pairs {
        cues.push(pair.1)?;
    }
    Ok(cues)
}

/// The number of the object of a cue: by its place among the shared ones, and else the cue's.
#[tactic(auto, using(crate::proofs::SharingLaws::number_here, crate::proofs::SharingLaws::number_next, crate::proofs::SharingLaws::number_own))]
pub(crate) fn number_of(shared: &[u16], cue: u16) -> u16
    requires { length shared.now ≤ 4096 }
    ensures { result ≡ names_of shared.now cue }
{
    for n in 0..shared.len() {
        if shared[n] == cue {
            return FIRST_SHARED + n as u16;
        }
    }
    cue
}
