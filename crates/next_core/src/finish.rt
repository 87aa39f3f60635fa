//! The end of a run: the entries of the logs in the order in which the places were asked, and the actors.
ghost use Rattle.std.specs.Prelude.{◌≡◌, ◌-◌, ◌≤◌, ℕ, List, [], true, IfOk, OnOk, length, reverse, take, slice_get};
ghost use Rattle.std.specs.List.{list_all};
ghost use Rattle.std.specs.Option.{option_copied};
ghost use Rattle.next_ids.specs.declared.ids.PlaceNo.{PlaceNo};
ghost use Rattle.next_steps.specs.declared.entry.Entry.{Entry};
ghost use Rattle.next_rules.specs.Setups.{has_place};
ghost use Rattle.next_places.specs.PlaceLists.{place_in};
ghost use Rattle.next_places.specs.Views.{held, counts_of, places_of, IsService};
ghost use Rattle.next_actor.specs.ActorStates.{is_settled};
ghost use Rattle.next_core.specs.Casts.{standings};
ghost use Rattle.next_core.specs.Ends.{count_shown, logs_left, IsWithin, placed};
ghost use Rattle.next_core.specs.Reached.{places_there};
ghost use Rattle.next_core.specs.Weave.{first_entry, without_first, taken, left as left_of, woven};

use crate::left::Left;
use next_actor::ActorState;
use next_history::EntryList;
use next_ids::{NoMemory, PlaceNo};
use next_places::Places;
use next_steps::Entry;
use std::alloc::Global;

// Place numbers are below this.
const PLACE_NUMBERS: u32 = 130;

// A copy of the entry, where there is one.
fn copy_of(entry: Option<&Entry>) -> Result<Option<Entry>, NoMemory>
    ensures { IfOk result (λ copy. copy ≡ option_copied entry.entry) }
{
    match entry {
        Some(entry) => Ok(Some(entry.copy()?)),
        None => Ok(None),
    }
}

// Takes the newest of the entries that are left of a log; `entry` is that entry.
fn take_newest(left: &mut usize, entry: Option<&Entry>) -> Result<Option<Entry>, NoMemory>
    ensures bound { left.new ≤ left.old }
    ensures first { IfOk result (λ newest. (log : List Entry) → left.old ≤ length log → option_copied entry.entry ≡ slice_get log (left.old - 1) → (place : PlaceNo) → first_entry place (reverse (take left.old log)) ≡ placed place newest) }
    ensures rest { OnOk result ((log : List Entry) → left.old ≤ length log → reverse (take left.new log) ≡ without_first (reverse (take left.old log))) }
{
    if *left == 0 {
        return Ok(None);
    }
    let newest = copy_of(entry)?;
    *left -= 1;
    Ok(newest)
}

// Takes the newest of the entries that are left of a place's log.
fn take_at(places: &Places, left: &mut Left, place: PlaceNo) -> Result<Option<Entry>, NoMemory>
    requires service { IsService places.now }
    requires there { has_place (counts_of places.now) place.0 ≡ true }
    requires within { IsWithin left.old places.now }
    ensures taken { IfOk result (λ newest. taken place (logs_left left.old places.now) ≡ placed place newest) }
    ensures left { OnOk result (logs_left left.new places.now ≡ left_of place (logs_left left.old places.now)) }
    ensures within { IsWithin left.new places.now }
{
    let count = &mut left.counts[place.0 as usize];
    match places.get(place) {
        Some(found) => take_newest(count, found.entry(count.saturating_sub(1))),
        None => Ok(None),
    }
}

// How many entries a place's log has: none where the service has no such place.
fn count_at(places: &Places, place: PlaceNo) -> usize
    requires { IsService places.now }
    ensures { result ≡ count_shown (place_in (places_of places.now) place.0) }
{
    match places.get(place) {
        Some(found) => found.count(),
        None => 0,
    }
}

// How many entries the logs have.
fn counted(alloc: Global, places: &Places) -> Result<Left, NoMemory>
    requires { IsService places.now }
    ensures within { IfOk result (λ left. IsWithin left places.now) }
    ensures whole { IfOk result (λ left. logs_left left places.now ≡ (held places.now).logs) }
{
    let mut counts = Vec::new(alloc);
    for number in 0..PLACE_NUMBERS {
        counts.push(count_at(places, PlaceNo(number)))?;
    }
    Ok(Left { counts })
}

/// The run of the logs, the oldest step first, where each place of the order is there.
pub fn entries_of(alloc: Global, places: &Places, order: &[PlaceNo]) -> Result<EntryList, NoMemory>
    requires service { IsService places.now }
    requires there { places_there (counts_of places.now) order.now ≡ true }
    ensures { IfOk result (λ entries. reverse entries ≡ woven (reverse order.now) (held places.now).logs) }
{
    let mut left = counted(alloc, places)?;
    let mut entries = EntryList::new(alloc);
    let mut at = order.len();
    while at > 0 {
        at -= 1;
        let place = order[at];
        if let Some(entry) = take_at(places, &mut left, place)? {
            if entries.push((place, entry)).is_err() {
                return Err(NoMemory);
            }
        }
    }
    entries.reverse();
    Ok(entries)
}

/// Has the actors work in what they keep.
pub fn settle_all(actors: &mut Vec<ActorState>) -> Result<(), NoMemory>
    ensures same { standings actors.new.items ≡ standings actors.old.items }
    ensures settled { OnOk result (list_all is_settled actors.new.items ≡ true) }
{
    for i in 0..actors.len() {
        actors[i].settle()?;
    }
    Ok(())
}
