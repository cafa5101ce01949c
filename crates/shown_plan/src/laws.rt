//! Laws on the plan of a script, for each script and receiver.

ghost use Rattle.std.specs.Prelude.{[], ◌+◌, ◌%◌, ◌∷◌, ◌≡◌, Bool, List, true, ℕ};
ghost use Rattle.cue_list.specs.declared.epoch.Cue.{Cue};
ghost use Rattle.cue_list.specs.declared.epoch.Epoch.{Epoch};
ghost use Rattle.cue_records.specs.declared.region.Region.{Region};
ghost use Rattle.cue_list.specs.declared.script.Script.{Script};
ghost use Rattle.decoder_model.specs.Taken.{Taken};
ghost use Rattle.page_epoch.specs.Live.{live_places};
ghost use Rattle.page_epoch.specs.Plan.{IsPlan};
ghost use Rattle.page_epoch.specs.SentRegions.{filled, region_version, sent_region};
ghost use Rattle.page_epoch.specs.declared.planned_set.PlannedSet.{PlannedSet};
ghost use Rattle.set_coder.specs.SetSegments.{AreSetSegments};
ghost use Rattle.shown_plan.specs.HiddenRegions.{IsDrawnAnew, IsHiddenExample};
ghost use Rattle.shown_plan.specs.HoldsScript.{IsKnownRegion};
ghost use Rattle.shown_plan.specs.NamedSets.{AreNamedSegments};
ghost use Rattle.shown_plan.specs.NeighbourPages.{AreNeighbourSets, HaveSamePage, IsPageAfter};
ghost use Rattle.stream_syntax.specs.Segments.{SegmentValue};
ghost use Rattle.sub_base.specs.Lists.{has_some};
ghost use Rattle.sub_base.specs.Profile.{profile_of};
ghost use Rattle.sub_base.specs.declared.profile.Profile.{Profile};
ghost use Rattle.sub_base.specs.declared.profile.ProfileName.TheVariants.{Sd};

/// Of two sets that follow each other the version of the page rises, but at a refresh, which sends
/// the same page again. So where the pages differ the versions do, over the start of an epoch too:
/// a receiver that passes over a page with the version of the one before misses nothing.
pub fn versions_tell_pages_apart()
    ensures after { (script : Script) (profile : Profile) (sets : List PlannedSet)
        (first second : PlannedSet) → IsPlan script profile sets
        → AreNeighbourSets sets first second → IsPageAfter script first second }
    ensures apart { (script : Script) (profile : Profile) (sets : List PlannedSet)
        (first second : PlannedSet) → IsPlan script profile sets
        → AreNeighbourSets sets first second → first.page_version ≡ second.page_version
        → HaveSamePage script first second }
{}

/// What the compiler sends of a set has numbers of the set's own for its objects: the places of
/// their cues. So all that is said of sets with such numbers is said of its sets.
pub fn places_are_names()
    ensures { (script : Script) (page : ℕ) (set : PlannedSet) (segments : List SegmentValue)
        → AreSetSegments script page set segments → AreNamedSegments script set segments }
{}

/// A region that had no cue at the instant before, and has cues at this one, is sent with a fill
/// and with all of its live cues, in the version that follows the one before (EN 300 743, clause
/// 7.2.3).
pub fn comes_back()
    ensures { (cues : List Cue) (whole : Bool) (id tick before : ℕ) (earlier : List ℕ)
        → live_places cues id before ≡ [] → has_some (live_places cues id tick) ≡ true
        → sent_region cues whole (tick ∷ before ∷ earlier) id
        ≡ filled id ((region_version cues id (before ∷ earlier) + 1) % 16)
        (live_places cues id tick)
        ∷ [] }
{}

/// Whoever knows such a region as its page memory has it where it holds the script, takes it anew:
/// the version is not the one that it has.
pub fn taken_anew()
    ensures { (epoch : Epoch) (whole : Bool) (tick before : ℕ) (earlier : List ℕ) (taken : Taken)
        (region : Region) → IsKnownRegion epoch (before ∷ earlier) taken region
        → live_places epoch.cues region.id before ≡ []
        → has_some (live_places epoch.cues region.id tick) ≡ true
        → IsDrawnAnew epoch whole (before ∷ earlier) tick taken region }
{}

/// Of the sets of a script's plan one receiver may have received all up to one of them, and another
/// one those from an acquisition point on: both know the epoch, by the same set last, and differ in
/// the codes of a region that the page of that set does not list.
pub fn hidden_regions_differ()
    ensures { IsHiddenExample (profile_of Sd) }
{}
