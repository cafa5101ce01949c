//! The law on `check` and `compile`.

ghost use Rattle.std.specs.Prelude.{List, true, ℕ};
ghost use Rattle.check_text.specs.CheckText.{IsCheckText};
ghost use Rattle.checked_script_laws.specs.Scheduled.{TellsSchedule};
ghost use Rattle.checked_script_laws.specs.Unbreached.{EndsUnbreached};
ghost use Rattle.decoder_model.specs.Streams.{entered_at};
ghost use Rattle.page_epoch.specs.declared.planned_set.PlannedSet.{PlannedSet};
ghost use Rattle.schedule.specs.Slots.{Timetable};
ghost use Rattle.script_stream.specs.ShownRightly.{IsShownRightly};
ghost use Rattle.shown_stream.specs.Compiled.{sent_pace, Compiling, received_by};
ghost use Rattle.sub_base.specs.Pace.{tick_of};
ghost use Rattle.sub_base.specs.Profile.{profile_of};
ghost use Rattle.sub_base.specs.declared.load.WriteLoad.{WriteLoad};

/// Of the packets of a script, entered behind any number of them, `check` finds no breach: neither
/// a level above the coded data buffer nor a display set that is done behind its time. Its ORIGIN
/// is the tick of the first packet that it gets, in ticks of 90 kHz: the script's origin, and a
/// step of the profile more for each packet that was missed.
pub fn check_of_a_script_finds_no_breach()
    ensures { (compiling : Compiling) (sets : List PlannedSet)
        (loads : List WriteLoad) (table : Timetable) (bytes : List ℕ) (missed : ℕ)
        (text : List ℕ)
        → (shown : IsShownRightly compiling sets loads table bytes)
        → IsCheckText
        (received_by compiling (tick_of (sent_pace compiling.profile compiling.script) missed))
        true (entered_at missed shown.packets) text
        → EndsUnbreached (profile_of compiling.profile).coded text }
{}

/// Of all packets of a script `check`, whose ORIGIN is the script's, tells the display sets of the
/// plan, in order of their presentation times, each done at its tick of the schedule, and no
/// breach.
pub fn check_tells_the_schedule()
    ensures { (compiling : Compiling) (sets : List PlannedSet)
        (loads : List WriteLoad) (table : Timetable) (bytes text : List ℕ)
        → (shown : IsShownRightly compiling sets loads table bytes)
        → IsCheckText (received_by compiling compiling.script.origin) true shown.packets text
        → TellsSchedule (profile_of compiling.profile).coded sets table text }
{}
