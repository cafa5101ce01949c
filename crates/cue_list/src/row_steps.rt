ghost use Rattle.cue_records.specs.declared.limits.TheConstants.{MOST_COLOURS};
ghost use Rattle.std.specs.Prelude.{◌≡◌, ◌∷◌, [], ◌<◌, None, OnOk, IfErr, option_map};
ghost use Rattle.csv.specs.Records.{fields_of};
ghost use Rattle.cue_records.specs.CellFaults.{first_of, value_at, origin_cells as origin_cells_of, display_cells as display_cells_of, refresh_cells as refresh_cells_of, epoch_cells as epoch_cells_of, region_cells as region_cells_of, colour_cells as colour_cells_of, IsRecordFault};
ghost use Rattle.cue_list.specs.RowFaults.{epoch_fault as epoch_fault_of, region_fault as region_fault_of, colour_fault as colour_fault_of};
ghost use Rattle.cue_records.specs.RowValues.{region_in, colour_in};
ghost use Rattle.cue_list.specs.Private.State.{IsReader, past_of, IsTaken, origin_next, display_next, refresh_next, epoch_next, region_next, colour_next, with_region, with_colour, with_cue};
ghost use Rattle.std.specs.Prelude.{Some};

use crate::epoch::{Cue, Epoch};
use crate::reader::Reader;
use csv::ByteRecord;
use cue_records::{
    ColourRow, RecordFault, Region, colour_cells, display_cells, epoch_cells, origin_cells,
    refresh_cells, region_cells,
};
use std::alloc::Global;
use sub_base::Items;

impl Reader {
    /// Takes the tick from which packets are sent.
    pub(crate) fn take_origin(&mut self, row: &ByteRecord) -> Result<(), RecordFault>
        requires { IsReader self.old }
        ensures taken { OnOk result
            (IsTaken (first_of (origin_cells_of (fields_of row.now) ∷ None ∷ []))
            (origin_next (past_of self.old) (fields_of row.now)) self.new) }
        ensures pictures { self.new.pictures ≡ self.old.pictures }
        ensures refused { IfErr result
            (IsRecordFault (first_of (origin_cells_of (fields_of row.now) ∷ None ∷ []))) }
    {
        self.origin = origin_cells(row)?;
        Ok(())
    }

    /// Takes the sides of the display.
    pub(crate) fn take_display(&mut self, row: &ByteRecord) -> Result<(), RecordFault>
        requires { IsReader self.old }
        ensures taken { OnOk result
            (IsTaken (first_of (display_cells_of (fields_of row.now) ∷ None ∷ []))
            (display_next (past_of self.old) (fields_of row.now)) self.new) }
        ensures pictures { self.new.pictures ≡ self.old.pictures }
        ensures refused { IfErr result
            (IsRecordFault (first_of (display_cells_of (fields_of row.now) ∷ None ∷ []))) }
    {
        let display = display_cells(row)?;
        self.width = display.width;
        self.height = display.height;
        Ok(())
    }

    /// Takes the seconds from one refresh to the next.
    pub(crate) fn take_refresh(&mut self, row: &ByteRecord) -> Result<(), RecordFault>
        requires { IsReader self.old }
        ensures taken { OnOk result
            (IsTaken (first_of (refresh_cells_of (fields_of row.now) ∷ None ∷ []))
            (refresh_next (past_of self.old) (fields_of row.now)) self.new) }
        ensures pictures { self.new.pictures ≡ self.old.pictures }
        ensures refused { IfErr result
            (IsRecordFault (first_of (refresh_cells_of (fields_of row.now) ∷ None ∷ []))) }
    {
        self.seconds = refresh_cells(row)?;
        Ok(())
    }

    /// Takes an epoch's start: the last epoch ends.
    pub(crate) fn take_epoch(
        &mut self,
        alloc: Global,
        number: u64,
        row: &ByteRecord,
    ) -> Result<(), RecordFault>
        requires { IsReader self.old }
        ensures taken { OnOk result
            (IsTaken (first_of
            (epoch_cells_of self.old.origin (fields_of row.now)
            ∷ epoch_fault_of (past_of self.old) (value_at (fields_of row.now) 1) ∷ []))
            (epoch_next (past_of self.old) number (fields_of row.now)) self.new) }
        ensures pictures { self.new.pictures ≡ self.old.pictures }
        ensures refused { IfErr result
            (IsRecordFault
            (first_of
            (epoch_cells_of self.old.origin (fields_of row.now)
            ∷ epoch_fault_of (past_of self.old) (value_at (fields_of row.now) 1) ∷ []))) }
    {
        let start = epoch_cells(row, self.origin)?;
        if let Some(kind) = self.epoch_fault(start) {
            return Err(RecordFault::Wrong(kind));
        }
        self.ticks.add(start)?;
        if let Some(epoch) = self.epoch.take() {
            self.ended.push(epoch)?;
        }
        self.epoch = Some(Epoch {
            start,
            row: number,
            regions: Items::new(alloc, Vec::new(alloc)),
            colours: Items::new(alloc, Vec::new(alloc)),
            cues: Items::new(alloc, Vec::new(alloc)),
        });
        Ok(())
    }

    /// Takes a region of the last epoch.
    pub(crate) fn take_region(&mut self, row: &ByteRecord) -> Result<(), RecordFault>
        requires { IsReader self.old }
        ensures taken { OnOk result
            (IsTaken (first_of
            (region_cells_of (fields_of row.now)
            ∷ region_fault_of (past_of self.old) (region_in (fields_of row.now)) ∷ []))
            (region_next (past_of self.old) (fields_of row.now)) self.new) }
        ensures pictures { self.new.pictures ≡ self.old.pictures }
        ensures refused { IfErr result
            (IsRecordFault
            (first_of
            (region_cells_of (fields_of row.now)
            ∷ region_fault_of (past_of self.old) (region_in (fields_of row.now)) ∷ []))) }
    {
        let region = region_cells(row)?;
        if let Some(kind) = self.region_fault(region) {
            return Err(RecordFault::Wrong(kind));
        }
        add_region(&mut self.epoch, region)
    }

    /// Takes a colour of the last epoch.
    #[tactic(auto, unfolding(cue_records::specs::RowValues::colour_in))]
    pub(crate) fn take_colour(&mut self, number: u64, row: &ByteRecord) -> Result<(), RecordFault>
        requires reader { IsReader self.old }
        requires few { self.old.colours < MOST_COLOURS }
        ensures taken { OnOk result
            (IsTaken (first_of
            (colour_cells_of self.old.origin (fields_of row.now)
            ∷ colour_fault_of (past_of self.old) (colour_in number (fields_of row.now)) ∷ []))
            (colour_next (past_of self.old) number (fields_of row.now)) self.new) }
        ensures pictures { self.new.pictures ≡ self.old.pictures }
        ensures refused { IfErr result
            (IsRecordFault
            (first_of
            (colour_cells_of self.old.origin (fields_of row.now)
            ∷ colour_fault_of (past_of self.old) (colour_in number (fields_of row.now))
            ∷ []))) }
    {
        let colour = colour_cells(row, self.origin, number)?;
        if let Some(kind) = self.colour_fault(colour) {
            return Err(RecordFault::Wrong(kind));
        }
        self.ticks.add(colour.tick)?;
        add_colour(&mut self.epoch, colour)?;
        self.colours += 1;
        Ok(())
    }
}

/// Adds a region to an epoch, where there is one.
fn add_region(epoch: &mut Option<Epoch>, region: Region) -> Result<(), RecordFault>
    ensures added { OnOk result (epoch.new ≡ option_map (with_region region) epoch.old) }
    ensures memory { IfErr result (IsRecordFault None) }
{
    let Some(mut last) = epoch.take() else {
        return Ok(());
    };
    // Taken out and put back: contracts have no name for what a `&mut` into an `Option` changes.
    last.regions.push(region)?;
    *epoch = Some(last);
    Ok(())
}

/// Adds a colour to an epoch, where there is one.
fn add_colour(epoch: &mut Option<Epoch>, colour: ColourRow) -> Result<(), RecordFault>
    ensures added { OnOk result (epoch.new ≡ option_map (with_colour colour) epoch.old) }
    ensures memory { IfErr result (IsRecordFault None) }
{
    let Some(mut last) = epoch.take() else {
        return Ok(());
    };
    last.colours.push(colour)?;
    *epoch = Some(last);
    Ok(())
}

/// Adds a cue to an epoch, where there are both.
pub(crate) fn add_cue(epoch: &mut Option<Epoch>, cue: Option<Cue>) -> Result<(), RecordFault>
    ensures added { OnOk result (epoch.new ≡ option_map (with_cue cue) epoch.old) }
    ensures memory { IfErr result (IsRecordFault None) }
{
    let Some(mut last) = epoch.take() else {
        return Ok(());
    };
    if let Some(cue) = cue {
        last.cues.push(cue)?;
    }
    *epoch = Some(last);
    Ok(())
}
