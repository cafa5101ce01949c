//! Laws on spaced sets, for any sets and any pace.

ghost use Rattle.std.specs.Prelude.{◌≡◌, ℕ, List, map, All};
ghost use Rattle.sub_base.specs.Pace.{IsSending, pace_of};
ghost use Rattle.sub_base.specs.declared.load.WriteLoad.{WriteLoad};
ghost use Rattle.sub_base.specs.declared.pace.Pace.{Pace};
ghost use Rattle.sub_base.specs.declared.profile.Profile.{Profile};
ghost use Rattle.schedule.specs.Refusals.{IsScheduleCause};
ghost use Rattle.schedule.specs.Slots.{IsLoad};
ghost use Rattle.schedule.specs.declared.fault.ScheduleFault.{ScheduleFault};
ghost use Rattle.schedule.specs.declared.fault.ScheduleFault.TheVariants.{Memory};
ghost use Rattle.spaced_set_laws.specs.Apart.{AreWellApart, IsSmall};
ghost use Rattle.spaced_set_laws.specs.Spaced.{AreSpaced, ArriveInTime};

/// Spaced sets can arrive such that the buffer never overflows and each is done by its time.
pub fn spaced_sets_arrive_in_time()
    ensures { (loads : List WriteLoad) (pace : Pace)
        → All IsLoad loads → AreSpaced loads pace → ArriveInTime loads pace }
{}

/// So a schedule of spaced sets is refused for want of memory alone.
pub fn spaced_sets_are_never_refused()
    ensures { (loads : List WriteLoad) (pace : Pace) (fault : ScheduleFault)
        → All IsLoad loads → AreSpaced loads pace → IsScheduleCause loads pace fault
        → fault ≡ Memory }
{}

/// Small sets that are shown far apart are spaced, in each profile in which packets are sent, so
/// that their schedule is not refused either.
pub fn small_sets_apart_are_spaced()
    ensures spaced { (loads : List WriteLoad) (times : List ℕ) (origin : ℕ) (profile : Profile)
        → IsSending profile → All IsLoad loads → All IsSmall loads
        → map (λ load. load.load.pts) loads ≡ times → AreWellApart origin times
        → AreSpaced loads (pace_of origin profile) }
    ensures never_refused { (loads : List WriteLoad) (times : List ℕ) (origin : ℕ)
        (profile : Profile) (fault : ScheduleFault)
        → IsSending profile → All IsLoad loads → All IsSmall loads
        → map (λ load. load.load.pts) loads ≡ times → AreWellApart origin times
        → IsScheduleCause loads (pace_of origin profile) fault → fault ≡ Memory }
{}
