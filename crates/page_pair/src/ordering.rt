ghost use Rattle.std.specs.Prelude.{◌≡◌, ◌+◌, ◌≤◌, ◌++◌, IfOk, OnOk, drop, length, take};
ghost use Rattle.page_pair.specs.Private.Objects.{IsPlaceOf};
ghost use Rattle.page_pair.specs.PairSets.{at_cue, before_cue, behind_cue, in_order as in_order_of, names_of, own};

use crate::pages::TwoPages;
use crate::set_object::SetObject;
use crate::sharing::number_of;
use std::alloc::Global;
use std::marker::Model;
use sub_base::NoMemory;

/// An object of a set, with the page that it is sent on and its number.
#[derive(Drop)]
pub(crate) struct PagedObject<'a> {
    pub(crate) page: u16,
    pub(crate) number: u16,
    pub(crate) object: &'a SetObject<'a>,
}

impl<'a> Model for PagedObject<'a> {
    ghost use Rattle.page_pair.specs.PairSets.{Paged, on};
    ghost use Rattle.set_coder.specs.SetSegments.{object_segment};

    ghost Value = { Paged };

    ghost view = { λ s. on s.page
        (object_segment s.number s.object.now.see_through s.object.now.top s.object.now.bottom) };
}

/// The cues whose objects are shared: pairs of one of the first language and one of the second, and
/// those of each language by themselves.
#[derive(Clone, Copy)]
pub(crate) struct Shared<'a> {
    pub(crate) pairs: &'a [(u16, u16)],
    pub(crate) first: &'a [u16],
    pub(crate) second: &'a [u16],
}

/// The objects of two languages in the order in which they are sent: for each shared one those
/// before it of the first and of the second language, and then it; at last the others of each.
#[tactic(auto, using(crate::proofs::OrderLaws::order_step, crate::proofs::OrderLaws::order_end))]
pub(crate) fn in_order<'a>(
    alloc: Global,
    pages: TwoPages,
    shared: &Shared<'_>,
    one: &'a [SetObject<'a>],
    two: &'a [SetObject<'a>],
) -> Result<Vec<PagedObject<'a>>, NoMemory>
    requires first { length shared.now.first.now ≤ 4096 }
    requires second { length shared.now.second.now ≤ 4096 }
    ensures { IfOk result (λ objects. objects.items
        ≡ in_order_of pages (names_of shared.now.first.now) (names_of shared.now.second.now)
        shared.now.pairs.now one.now two.now) }
{
    let mut ordered = Ordered {
        one,
        one_from: 0,
        two,
        two_from: 0,
        objects: Vec::with_capacity(alloc, one.len())?,
    };
    for pair in shared.pairs {
        ordered.take_pair(pages, shared, *pair)?;
    }
    ordered.take_rest(pages, shared)?;
    Ok(ordered.objects)
}

/// The objects that are in order so far, and the objects of each language, with the place of the
/// first that is left.
#[derive(Drop)]
struct Ordered<'a> {
    one: &'a [SetObject<'a>],
    one_from: usize,
    two: &'a [SetObject<'a>],
    two_from: usize,
    objects: Vec<PagedObject<'a>>,
}

impl<'a> Ordered<'a> {
    /// Takes the objects of a pair of cues that is shared, behind those of each language before it.
    #[tactic(auto, using(crate::proofs::OrderLaws::left_behind))]
    fn take_pair(
        &mut self,
        pages: TwoPages,
        shared: &Shared<'_>,
        pair: (u16, u16),
    ) -> Result<(), NoMemory>
        requires first { length shared.now.first.now ≤ 4096 }
        requires second { length shared.now.second.now ≤ 4096 }
        requires within { self.old.one_from ≤ length self.old.one.now }
        requires within_two { self.old.two_from ≤ length self.old.two.now }
        ensures same { OnOk result (self.new.one.now ≡ self.old.one.now) }
        ensures same_two { OnOk result (self.new.two.now ≡ self.old.two.now) }
        ensures within { OnOk result (self.new.one_from ≤ length self.old.one.now) }
        ensures within_two { OnOk result (self.new.two_from ≤ length self.old.two.now) }
        ensures one { OnOk result (drop self.new.one_from self.old.one.now
            ≡ behind_cue pair.0 (drop self.old.one_from self.old.one.now)) }
        ensures two { OnOk result (drop self.new.two_from self.old.two.now
            ≡ behind_cue pair.1 (drop self.old.two_from self.old.two.now)) }
        ensures objects { OnOk result (self.new.objects.items
            ≡ ((self.old.objects.items
            ++ own pages.first (names_of shared.now.first.now)
            (before_cue pair.0 (drop self.old.one_from self.old.one.now)))
            ++ own pages.second (names_of shared.now.second.now)
            (before_cue pair.1 (drop self.old.two_from self.old.two.now)))
            ++ own pages.shared (names_of shared.now.first.now)
            (at_cue pair.0 (drop self.old.one_from self.old.one.now))) }
    {
        let (_, left) = self.one.split_at(self.one_from);
        let (at, own) = place_of(pair.0, left);
        let (before, rest) = left.split_at(at);
        let (same, _) = rest.split_at(own);
        let (_, other_left) = self.two.split_at(self.two_from);
        let (other_at, other_own) = place_of(pair.1, other_left);
        let (other_before, _) = other_left.split_at(other_at);
        push_own(pages.first, shared.first, before, &mut self.objects)?;
        push_own(pages.second, shared.second, other_before, &mut self.objects)?;
        push_own(pages.shared, shared.first, same, &mut self.objects)?;
        self.one_from = self.one_from + at + own;
        self.two_from = self.two_from + other_at + other_own;
        Ok(())
    }

    /// Takes the objects that are left of each language.
    fn take_rest(&mut self, pages: TwoPages, shared: &Shared<'_>) -> Result<(), NoMemory>
        requires first { length shared.now.first.now ≤ 4096 }
        requires second { length shared.now.second.now ≤ 4096 }
        requires within { self.old.one_from ≤ length self.old.one.now }
        requires within_two { self.old.two_from ≤ length self.old.two.now }
        ensures objects { OnOk result (self.new.objects.items
            ≡ (self.old.objects.items
            ++ own pages.first (names_of shared.now.first.now)
            (drop self.old.one_from self.old.one.now))
            ++ own pages.second (names_of shared.now.second.now)
            (drop self.old.two_from self.old.two.now)) }
    {
        let (_, left) = self.one.split_at(self.one_from);
        let (_, other_left) = self.two.split_at(self.two_from);
        push_own(pages.first, shared.first, left, &mut self.objects)?;
        push_own(pages.second, shared.second, other_left, &mut self.objects)
    }
}

/// Appends objects of one page.
fn push_own<'a>(
    page: u16,
    shared: &[u16],
    objects: &'a [SetObject<'a>],
    ordered: &mut Vec<PagedObject<'a>>,
) -> Result<(), NoMemory>
    requires { length shared.now ≤ 4096 }
    ensures { OnOk result
        (ordered.new.items ≡ ordered.old.items ++ own page (names_of shared.now) objects.now) }
{
    for object in objects {
        ordered.push(PagedObject {
            page,
            number: number_of(shared, object.cue),
            object,
        })?;
    }
    Ok(())
}

/// How many objects stand before that of a cue, and whether there is one: 1, or 0 where all stand
/// before.
fn place_of(cue: u16, objects: &[SetObject<'_>]) -> (usize, usize)
    ensures within { result.0 + result.1 ≤ length objects.now }
    ensures before { before_cue cue objects.now ≡ take result.0 objects.now }
    ensures own { at_cue cue objects.now ≡ take result.1 (drop result.0 objects.now) }
    ensures behind { behind_cue cue objects.now ≡ drop result.1 (drop result.0 objects.now) }
{
    match find_cue(cue, objects) {
        None => (objects.len(), 0),
        Some(at) => (at, 1),
    }
}

/// Where the first object of a cue stands, if there is one.
#[tactic(auto, using(crate::proofs::OrderLaws::place_here, crate::proofs::OrderLaws::place_next, crate::proofs::OrderLaws::place_none))]
fn find_cue(cue: u16, objects: &[SetObject<'_>]) -> Option<usize>
    ensures { IsPlaceOf cue objects.now result }
{
    for at in 0..objects.len() {
        let object = &objects[at];
        if object.cue == cue {
            return Some(at);
        }
    }
    None
}
