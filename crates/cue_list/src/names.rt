ghost use Rattle.std.specs.Prelude.{◌≡◌, ℕ, List, None, OnOk, IfErr, IfOk};
ghost use Rattle.cue_records.specs.CellFaults.{IsRecordFault};
ghost use Rattle.cue_list.specs.Private.Names.{place_by, named_with};

use cue_records::RecordFault;
use std::alloc::Global;
use std::collections::BTreeMap;
use sub_base::NoMemory;

/// The last picture of each name: its place in the list of pictures.
#[derive(Drop)]
pub(crate) struct Names {
    places: BTreeMap<String, u32>,
}

impl Names {
    pub(crate) fn new(alloc: Global) -> Names
        ensures { (name : List ℕ) → place_by result name ≡ None }
    {
        Names {
            places: BTreeMap::new(alloc),
        }
    }

    /// The same places, in memory of their own.
    pub(crate) fn copy(&self) -> Result<Names, NoMemory>
        ensures { IfOk result (λ copy. place_by copy ≡ place_by self.now) }
    {
        Ok(Names {
            places: self.places.clone()?,
        })
    }

    /// The place of the last picture of that name.
    pub(crate) fn place(&self, name: &str) -> Option<u32>
        ensures { result ≡ place_by self.now name.now }
    {
        self.places.get(name).copied()
    }

    /// Notes the place of a picture of that name.
    pub(crate) fn add(&mut self, alloc: Global, name: &str, place: u32) -> Result<(), RecordFault>
        ensures memory { IfErr result (IsRecordFault None) }
        ensures added { OnOk result
            (place_by self.new ≡ named_with name.now place (place_by self.old)) }
    {
        let name = String::from_str(alloc, name)?;
        // A later picture of the same name serves for the records behind it.
        self.places.insert(name, place)?;
        Ok(())
    }
}
