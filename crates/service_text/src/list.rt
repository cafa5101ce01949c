ghost use Rattle.std.specs.Prelude.{◌≡◌, ◌+◌, ◌<◌, ◌≤◌, length, vec_len};
ghost use Rattle.std.specs.Vec.{vec_capacity};
ghost use Rattle.service_text.specs.Private.Placing.{place_in, placed};

use crate::service::SubtitleService;
use std::alloc::Global;
use std::marker::Model;
use sub_base::NoMemory;

/// The most services that are told.
const MOST_SERVICES: usize = 512;

/// Services in order, the first 512 where there are more, in memory of a fixed size.
#[derive(Drop)]
pub struct ServiceList {
    entries: Vec<SubtitleService>,
    more: bool,
}

impl Model for ServiceList {
    ghost use Rattle.std.specs.Prelude.{◌≤◌, length};
    ghost use Rattle.std.specs.Vec.{vec_capacity};
    ghost use Rattle.service_text.specs.Listing.{ServiceListing};

    ghost Value = { ServiceListing };

    ghost view = { λ list. record { entries = list.entries.items; more = list.more } };

    ghost invariant = { λ list. (513 ≤ vec_capacity list.entries)
        × (length list.entries.items ≤ 512) };
}

impl ServiceList {
    ghost use Rattle.std.specs.Prelude.{◌≡◌, ◌||◌, ◌∷◌, [], nat_lt, length, take, IfOk};
    ghost use Rattle.service_text.specs.Listing.{IsListing, ListsMore};
    ghost use Rattle.service_text.specs.Private.Placing.{placed};

    /// No service. All memory is taken here.
    pub fn make(alloc: Global) -> Result<ServiceList, NoMemory>
        ensures { IfOk result (λ list. IsListing list []) }
    {
        Ok(ServiceList {
            // One more stands in it while the last one is dropped.
            entries: Vec::with_capacity(alloc, MOST_SERVICES + 1)?,
            more: false,
        })
    }

    /// The services.
    pub(crate) fn entries(&self) -> &[SubtitleService]
        ensures { result.now ≡ self.now.entries }
    {
        self.entries.as_slice()
    }

    /// Whether there are more.
    pub(crate) fn has_more(&self) -> bool
        ensures { result ≡ self.now.more }
    {
        self.more
    }

    /// Lists a service more.
    pub fn list(&mut self, service: SubtitleService)
        ensures { ListsMore self.old self.new (service ∷ []) }
    {
        self.put(service);
    }

    /// Puts a service in its place.
    fn put(&mut self, service: SubtitleService)
        ensures { let all = placed service self.old.entries in
            self.new ≡ record {
              entries = take 512 all;
              more = self.old.more
                  || nat_lt 512 (length all);
            } }
    {
        put_in(&mut self.entries, service);
        if self.entries.len() > MOST_SERVICES {
            self.entries.truncate(MOST_SERVICES);
            self.more = true;
        }
    }
}

/// Puts a service in its place among entries that have room for one more.
fn put_in(entries: &mut Vec<SubtitleService>, service: SubtitleService)
    requires { vec_len entries.old < vec_capacity entries.old }
    ensures items { entries.new.items ≡ placed service entries.old.items }
    ensures len { vec_len entries.new ≡ vec_len entries.old + 1 }
    ensures room { vec_capacity entries.old ≤ vec_capacity entries.new }
{
    let place = place_of(&service, entries.as_slice());
    entries.insert(place, service).unwrap();
}

/// How many entries stand in front of a service.
fn place_of(service: &SubtitleService, entries: &[SubtitleService]) -> usize
    ensures place { result ≡ place_in service.now entries.now }
    ensures within { result ≤ length entries.now }
{
    for (place, entry) in entries.iter().enumerate() {
        if service.comes_before(entry) {
            return place;
        }
    }
    entries.len()
}
