ghost use Rattle.std.specs.Prelude.{◌≡◌, ◌-◌, ◌<◌, ◌≤◌, [], ◌∷◌, max, map, length, All, IfOk, OnOk};
ghost use Rattle.cue_records.specs.declared.limits.TheConstants.{MOST_CUES, MOST_REGIONS};
ghost use Rattle.page_epoch.specs.Sendable.{HasCue, HasRegion, IsSendableClut, IsSendableIn, IsSendableRegion};
ghost use Rattle.set_coder.specs.SetSegments.{clut_segment_of, display_segments, page_segment};
ghost use Rattle.set_coder.specs.Usable.{IsUsable};
ghost use Rattle.shown_plan.specs.NamedSets.{named_listing, named_region};
ghost use Rattle.stream_syntax.specs.Segments.{end_of_set};
ghost use Rattle.sub_base.specs.declared.load.TheConstants.{UNIT_ROOM};
ghost use Rattle.page_pair.specs.PairSets.{head_of, names_of, on, paged_length};
ghost use Rattle.page_pair.specs.Private.Objects.{IsReady};
ghost use Rattle.page_pair.specs.Private.Writing.{AreWritten, WritesMore, clut_bytes, cluts_by, when};

use crate::cluts::has_bytes;
use crate::ordering::PagedObject;
use crate::set_object::Language;
use crate::sharing::{has_same_flag, number_of};
use cue_list::{Epoch, Script};
use page_epoch::{PlannedSet, SentClut, SentRegion};
use set_coder::{
    append_blocks, append_clut, append_display, append_end, append_listed, append_page,
};
use std::alloc::Global;
use stream_syntax::Listing;
use sub_base::{Items, NoMemory};

/// Segments that are written one after the other.
#[derive(Drop)]
pub(crate) struct Written {
    pub(crate) bytes: Vec<u8>,
    /// The bytes of the longest segment.
    pub(crate) longest: usize,
}

impl Written {
    /// No segment so far.
    pub(crate) fn new(alloc: Global) -> Written
        ensures { AreWritten [] result }
    {
        Written {
            bytes: Vec::new(alloc),
            longest: 0,
        }
    }

    /// Takes note of a segment that begins at that place and ends where the bytes end.
    fn note(&mut self, begin: usize)
        requires { begin ≤ length self.old.bytes.items }
        ensures bytes { self.new.bytes ≡ self.old.bytes }
        ensures longest { self.new.longest
            ≡ max self.old.longest (length self.old.bytes.items - begin) }
    {
        self.longest = self.longest.max(self.bytes.len() - begin);
    }

    /// Writes display, page and regions of a language, whose objects have numbers by the cues that
    /// are shared.
    #[tactic(auto, using(crate::proofs::WritingLaws::head_more))]
    pub(crate) fn put_head(
        &mut self,
        language: &Language<'_>,
        page: u16,
        shared: &[u16],
    ) -> Result<(), NoMemory>
        requires ready { IsReady language.now }
        requires few { length shared.now ≤ 4096 }
        ensures { OnOk result (WritesMore
            (map (on page) (head_of (names_of shared.now) language.now)) self.old self.new) }
    {
        self.put_display(language.script, language.epoch, language.set, page)?;
        self.put_page(language.script, language.epoch, language.set, page)?;
        self.put_regions(
            language.epoch,
            language.set.regions.as_slice(),
            page,
            shared,
        )
    }

    fn put_display(
        &mut self,
        script: &Script,
        _epoch: &Epoch,
        set: &PlannedSet,
        page: u16,
    ) -> Result<(), NoMemory>
        requires usable { IsUsable _epoch.now }
        requires carried { IsSendableIn _epoch.now set.now }
        ensures { OnOk result (WritesMore
            (map (on page) (display_segments script.now set.now.state)) self.old self.new) }
    {
        let begin = self.bytes.len();
        append_display(script, page, set.state, &mut self.bytes)?;
        self.note(begin);
        Ok(())
    }

    fn put_page(
        &mut self,
        script: &Script,
        epoch: &Epoch,
        set: &PlannedSet,
        page: u16,
    ) -> Result<(), NoMemory>
        requires usable { IsUsable epoch.now }
        requires version { set.now.page_version < 16 }
        requires few { length set.now.shown ≤ MOST_REGIONS }
        requires shown { All (HasRegion epoch.now) set.now.shown }
        ensures { OnOk result (WritesMore
            (on page (page_segment script.now epoch.now set.now) ∷ []) self.old self.new) }
    {
        let begin = self.bytes.len();
        append_page(script, epoch, page, set, &mut self.bytes)?;
        self.note(begin);
        Ok(())
    }

    #[tactic(auto, using(crate::proofs::WritingLaws::region_more, crate::proofs::WritingLaws::regions_all, crate::proofs::WritingLaws::more_none))]
    fn put_regions(
        &mut self,
        epoch: &Epoch,
        regions: &[SentRegion],
        page: u16,
        shared: &[u16],
    ) -> Result<(), NoMemory>
        requires usable { IsUsable epoch.now }
        requires each { All (IsSendableRegion epoch.now) regions.now }
        requires few { length shared.now ≤ 4096 }
        ensures { OnOk result (WritesMore
            (map (on page) (map (named_region (names_of shared.now) epoch.now) regions.now))
            self.old self.new) }
    {
        for sent in regions {
            self.put_region(epoch, sent, page, shared)?;
        }
        Ok(())
    }

    fn put_region(
        &mut self,
        epoch: &Epoch,
        sent: &SentRegion,
        page: u16,
        shared: &[u16],
    ) -> Result<(), NoMemory>
        requires usable { IsUsable epoch.now }
        requires sent { IsSendableRegion epoch.now sent.now }
        requires few { length shared.now ≤ 4096 }
        ensures { OnOk result (WritesMore
            (on page (named_region (names_of shared.now) epoch.now sent.now) ∷ [])
            self.old self.new) }
    {
        let begin = self.bytes.len();
        let listings = listings_of(*self.bytes.allocator(), epoch, sent.cues.as_slice(), shared)?;
        append_listed(epoch, page, sent, listings.as_slice(), &mut self.bytes)?;
        self.note(begin);
        Ok(())
    }

    fn put_clut(&mut self, epoch: &Epoch, sent: &SentClut, page: u16) -> Result<(), NoMemory>
        requires usable { IsUsable epoch.now }
        requires sent { IsSendableClut epoch.now sent.now }
        ensures { OnOk result (WritesMore
            (on page (clut_segment_of epoch.now sent.now) ∷ []) self.old self.new) }
    {
        let begin = self.bytes.len();
        append_clut(epoch, page, sent, &mut self.bytes)?;
        self.note(begin);
        Ok(())
    }

    /// Writes those CLUTs that others are equal to, or those that none is equal to. Of both the
    /// bytes are given, each for page 0.
    #[tactic(auto, using(crate::proofs::WritingLaws::clut_more, crate::proofs::WritingLaws::cluts_all, crate::proofs::WritingLaws::more_none))]
    pub(crate) fn put_cluts(
        &mut self,
        epoch: &Epoch,
        cluts: &[SentClut],
        page: u16,
        own: &[Items<u8>],
        others: &[Items<u8>],
        shared: bool,
    ) -> Result<(), NoMemory>
        requires usable { IsUsable epoch.now }
        requires each { All (IsSendableClut epoch.now) cluts.now }
        requires many { length own.now ≡ length cluts.now }
        requires own { own.now ≡ map (clut_bytes epoch.now) cluts.now }
        ensures { OnOk result (WritesMore
            (map (on page) (cluts_by shared others.now epoch.now cluts.now)) self.old self.new) }
    {
        for at in 0..cluts.len() {
            let sent = &cluts[at];
            let bytes = &own[at];
            let chosen = has_same_flag(shared, has_bytes(others, bytes.as_slice()));
            self.put_chosen(epoch, sent, page, chosen)?;
        }
        Ok(())
    }

    #[tactic(auto, using(crate::proofs::WritingLaws::more_none))]
    fn put_chosen(
        &mut self,
        epoch: &Epoch,
        sent: &SentClut,
        page: u16,
        chosen: bool,
    ) -> Result<(), NoMemory>
        requires usable { IsUsable epoch.now }
        requires sent { IsSendableClut epoch.now sent.now }
        ensures { OnOk result (WritesMore
            (map (on page) (when chosen (clut_segment_of epoch.now sent.now))) self.old self.new) }
    {
        if chosen {
            self.put_clut(epoch, sent, page)?;
        }
        Ok(())
    }

    /// Writes objects, in their order.
    #[tactic(auto, using(crate::proofs::WritingLaws::item_more, crate::proofs::WritingLaws::items_all, crate::proofs::WritingLaws::more_none))]
    pub(crate) fn put_objects(&mut self, objects: &[PagedObject<'_>]) -> Result<(), NoMemory>
        requires { All (λ object. paged_length object ≤ UNIT_ROOM) objects.now }
        ensures { OnOk result (WritesMore objects.now self.old self.new) }
    {
        for object in objects {
            self.put_object(object)?;
        }
        Ok(())
    }

    fn put_object(&mut self, object: &PagedObject<'_>) -> Result<(), NoMemory>
        requires { paged_length object.now ≤ UNIT_ROOM }
        ensures { OnOk result (WritesMore (object.now ∷ []) self.old self.new) }
    {
        let begin = self.bytes.len();
        let own = object.object;
        let (top, bottom) = own.fields();
        append_blocks(
            object.page,
            object.number,
            own.see_through,
            top,
            bottom,
            &mut self.bytes,
        )?;
        self.note(begin);
        Ok(())
    }

    /// Writes the end of a set.
    pub(crate) fn put_end(&mut self, page: u16) -> Result<(), NoMemory>
        ensures { OnOk result (WritesMore (on page end_of_set ∷ []) self.old self.new) }
    {
        let begin = self.bytes.len();
        append_end(page, &mut self.bytes)?;
        self.note(begin);
        Ok(())
    }
}

/// The listings of cues, whose objects have numbers by the cues that are shared.
fn listings_of(
    alloc: Global,
    epoch: &Epoch,
    cues: &[u32],
    shared: &[u16],
) -> Result<Vec<Listing>, NoMemory>
    requires many { length epoch.now.cues ≤ MOST_CUES }
    requires each { All (HasCue epoch.now) cues.now }
    requires few { length shared.now ≤ 4096 }
    ensures { IfOk result
        (λ listings. listings.items
        ≡ map (named_listing (names_of shared.now) epoch.now) cues.now) }
{
    let mut listings = Vec::with_capacity(alloc, cues.len())?;
    for place in cues {
        let cue = epoch.cues.as_slice()[*place as usize];
        listings.push(Listing {
            object: number_of(shared, *place as u16),
            x: cue.x,
            y: cue.y,
        })?;
    }
    Ok(listings)
}
