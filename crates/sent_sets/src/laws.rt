ghost use Rattle.std.specs.Prelude.{List, filter, true, ℕ};
ghost use Rattle.std.specs.List.{AllZip};
ghost use Rattle.decoder_model.specs.Sets.{sets_of};
ghost use Rattle.decoder_model.specs.Streams.{entered_at};
ghost use Rattle.decoder_model.specs.declared.pages.Pages.{Pages};
ghost use Rattle.schedule.specs.Slots.{Timetable};
ghost use Rattle.sub_base.specs.declared.load.WriteLoad.{WriteLoad};
ghost use Rattle.sub_base.specs.declared.pace.Pace.{Pace};
ghost use Rattle.sent_sets.specs.EnteredSets.{IsEnteredLate};
ghost use Rattle.sent_sets.specs.RawSets.{RawSet, has_counted, IsDeliveryOf};
ghost use Rattle.sent_sets.specs.SentStream.{AreSentFor};

/// Of sets that are sent each that has segments for a receiver's pages comes whole, once and in
/// order, with these segments; nothing else does.
pub fn sent_sets_come()
    ensures { (pages : Pages) (pace : Pace) (pid : ℕ) (sets : List RawSet)
        (loads : List WriteLoad) (table : Timetable) (packets : List (List ℕ))
        → AreSentFor pages pace pid sets loads table packets
        → AllZip (IsDeliveryOf pages) (filter (has_counted pages) sets)
        (sets_of pace.coded pid pages true packets) }
{}

/// Where a receiver enters behind any number of packets, each set comes of which all packets are
/// left; before these at most later units of one set do.
pub fn sent_sets_late()
    ensures { (pages : Pages) (pace : Pace) (pid : ℕ) (sets : List RawSet)
        (loads : List WriteLoad) (table : Timetable) (packets : List (List ℕ)) (missed : ℕ)
        → AreSentFor pages pace pid sets loads table packets
        → IsEnteredLate pages missed table sets
        (sets_of pace.coded pid pages true (entered_at missed packets)) }
{}
