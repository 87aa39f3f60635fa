//! The places of a service.
ghost use Rattle.std.specs.Prelude.{◌≡◌, ◌↔◌, ◌≤◌, ◌++◌, ◌∷◌, [], true, false, IfOk, OnOk, OnErr, IfErr, IsTrue, Err, Some, None, length, is_some, slice_get};
ghost use Rattle.std.specs.Option.{option_copied, option_copied_mut};
ghost use Rattle.std.specs.Borrow.{sem};
ghost use Rattle.next_steps.specs.Answers.{lists};
ghost use Rattle.next_steps.specs.Asks.{place_of, suits};
ghost use Rattle.next_rules.specs.Setups.{has_place, AreCounts};
ghost use Rattle.next_places.specs.Held.{opening_held, served, full};
ghost use Rattle.next_places.specs.Lendings.{LendsAt, LendsPlace};
ghost use Rattle.next_places.specs.PlaceLists.{AreService, index_in, place_in, shard_items};
ghost use Rattle.next_places.specs.Views.{counts_of, held, items_of, places_of, IsService};

use crate::opening::opening_places;
use crate::place::Place;
use next_ids::{Actor, Counts, NoMemory, PlaceNo};
use next_steps::{Ask, Entry, ServeFault};
use std::alloc::Global;

/// A list of places. That of all places of a service has them by rising place number.
#[derive(Drop)]
pub struct PlaceList {
    places: Vec<Place>,
}

impl PlaceList {
    /// No places. It takes no memory.
    pub fn new(alloc: Global) -> PlaceList
        ensures { items_of result ≡ [] }
    {
        PlaceList {
            places: Vec::new(alloc),
        }
    }

    /// How many places there are.
    pub fn len(&self) -> usize
        ensures { result ≡ length (items_of self.now) }
    {
        self.places.len()
    }

    /// The i-th place, from 0. None comes exactly at and past the length.
    pub fn get(&self, i: usize) -> Option<&Place>
        ensures { option_copied result ≡ slice_get (items_of self.now) i }
    {
        self.places.get(i)
    }

    /// Adds a place at the end. The Err is want of memory, and hands the place back.
    pub fn push(&mut self, place: Place) -> Result<(), Place>
        ensures ok { OnOk result (items_of self.new ≡ items_of self.old ++ place ∷ []) }
        ensures err { OnErr result (items_of self.new ≡ items_of self.old) }
        ensures back { IfErr result (λ back. back ≡ place) }
    {
        match self.places.push(place) {
            Ok(()) => Ok(()),
            Err(refused) => Err(refused.value),
        }
    }
}

// How many of the places are shards.
fn count_shards(places: &[Place]) -> usize
    requires { length places.now ≤ 130 }
    ensures { result ≡ length (shard_items places.now) }
{
    let mut count = 0;
    for place in places {
        if let Place::Shard(_) = place {
            count += 1;
        }
    }
    count
}

/// All places of a service, by their numbers: the shards, the stores, the desk and the roster.
#[derive(Drop)]
pub struct Places {
    places: Vec<Place>,
    shards: usize,
}

impl Places {
    /// The places with which a service of so many shards and stores opens, 1 to 64 of each.
    pub fn new(alloc: Global, counts: Counts) -> Result<Places, NoMemory>
        requires { AreCounts counts }
        ensures held { IfOk result (λ places. held places ≡ opening_held) }
        ensures counts { IfOk result (λ places. counts_of places ≡ counts) }
        ensures service { IfOk result (λ places. IsService places) }
    {
        Ok(Places {
            places: opening_places(alloc, counts)?,
            shards: counts.shards as usize,
        })
    }

    /// The places as a list, by rising place number. It takes no memory.
    pub fn into_list(self) -> PlaceList
        requires { IsService self }
        ensures places { items_of result ≡ places_of self }
        ensures service { AreService (items_of result) }
    {
        PlaceList {
            places: self.places,
        }
    }

    /// The places of a list, which is to have all places of one service by rising place number, as `into_list` gives
    /// them. It takes no memory.
    pub fn from_list(list: PlaceList) -> Places
        requires { AreService (items_of list) }
        ensures places { places_of result ≡ items_of list }
        ensures service { IsService result }
    {
        let shards = count_shards(list.places.as_slice());
        Places {
            places: list.places,
            shards,
        }
    }

    /// The places, by their numbers.
    pub fn as_slice(&self) -> &[Place]
        ensures { result.now ≡ places_of self.now }
    {
        self.places.as_slice()
    }

    // The index of a place in the list, or the list's length where the service has no such place.
    fn index_of(&self, place: PlaceNo) -> usize
        requires { IsService self.now }
        ensures { result ≡ index_in (places_of self.now) place.0 }
    {
        let number = place.0 as usize;
        let count = self.places.len();
        let stores = count - 2 - self.shards;
        if number < self.shards {
            number
        } else if number < 64 {
            count
        } else if number < 64 + stores {
            self.shards + (number - 64)
        } else if number < 128 {
            count
        } else if number < 130 {
            self.shards + stores + (number - 128)
        } else {
            count
        }
    }

    // The place at an index of the list. None comes exactly at and past the length.
    fn at(&self, index: usize) -> Option<&Place>
        ensures { option_copied result ≡ slice_get (places_of self.now) index }
    {
        self.places.get(index)
    }

    /// The place with this number. None comes exactly where the service has no such place.
    pub fn get(&self, place: PlaceNo) -> Option<&Place>
        requires { IsService self.now }
        ensures place { option_copied result ≡ place_in (places_of self.now) place.0 }
        ensures there { is_some result ≡ has_place (counts_of self.now) place.0 }
    {
        let index = self.index_of(place);
        self.at(index)
    }

    // The place at an index of the list, to write to. None comes exactly at and past the length.
    fn at_mut(&mut self, index: usize) -> Option<&mut Place>
        ensures* lends { sem 𝓛 (LendsAt self.entry index result) }
        ensures place { option_copied_mut result ≡ slice_get (places_of self.old) index }
    {
        self.places.get_mut(index)
    }

    /// The place with this number, to write to. None comes exactly where the service has no such place. What is written
    /// must be a place of the same number.
    pub fn get_mut(&mut self, place: PlaceNo) -> Option<&mut Place>
        requires { IsService self.old }
        ensures* lends { sem 𝓛 (LendsPlace self.entry place.0 result) }
        ensures place { option_copied_mut result ≡ place_in (places_of self.old) place.0 }
        ensures there { is_some result ≡ has_place (counts_of self.old) place.0 }
    {
        let index = self.index_of(place);
        self.at_mut(index)
    }

    /// Serves an ask of the actor, whose last number is `last`, in the ask's place, and logs the step there, which is made at
    /// the moment. The service is to have that place, and the ask to be one that places of its kind serve. What all places
    /// hold together, the entry and the logs are as the rules say of all places as one; the answer is one that the table
    /// lists for the ask. LogFull comes exactly where that place's log has 1,048,576 entries, or a last number is 2^40 or
    /// more; else NotYet exactly where the desk has nothing to tell yet. On Err the places are as before.
    pub fn serve(
        &mut self,
        actor: Actor,
        last: u64,
        moment: u64,
        ask: &Ask,
    ) -> Result<Entry, ServeFault>
        requires service { IsService self.old }
        requires there { IsTrue (has_place (counts_of self.old) (place_of ask.now).0) }
        requires suits { IsTrue (suits ask.now) }
        ensures step { IfOk result (λ entry. served (held self.old) actor last moment ask.now ≡ Some (record { entry = entry; held = held self.new })) }
        ensures listed { IfOk result (λ entry. IsTrue (lists ask.now entry.answer)) }
        ensures full { (result ≡ Err ServeFault.LogFull) ↔ (full (held self.old) last ask.now ≡ true) }
        ensures not_yet { (result ≡ Err ServeFault.NotYet) ↔ ((full (held self.old) last ask.now ≡ false) × (served (held self.old) actor last moment ask.now ≡ None)) }
        ensures err { OnErr result (held self.new ≡ held self.old) }
        ensures counts { counts_of self.new ≡ counts_of self.old }
        ensures service { IsService self.new }
    {
        let index = self.index_of(ask.place());
        match &mut self.places[index] {
            Place::Shard(shard) => shard.serve(actor, last, moment, ask),
            Place::Store(store) => store.serve(actor, last, moment, ask),
            Place::Desk(desk) => desk.serve(actor, last, moment, ask),
            Place::Roster(roster) => roster.serve(actor, last, moment, ask),
        }
    }
}
