//! The logs of places, and the run that they make.
ghost use Rattle.std.specs.Prelude.{◌≡◌, [], ◌∷◌, ◌++◌, length, map, slice_get, OnOk, OnErr, IfOk, IfErr};
ghost use Rattle.std.specs.Option.{option_copied};
ghost use Rattle.std.specs.List.Sorted.{IsPermutation, IsSortedByKey};
ghost use Rattle.next_history.specs.Merged.{entries_of, entries_at, stamp_of};

use crate::entries::EntryList;
use next_ids::{NoMemory, PlaceNo, Stamp};
use next_steps::Entry;
use std::alloc::Global;
use std::marker::Model;

/// The entries of a place, in order.
#[derive(Debug, Drop)]
pub struct PlaceEntries {
    entries: Vec<Entry>,
}

impl Model for PlaceEntries {
    ghost use Rattle.std.specs.Prelude.{List};
    ghost use Rattle.next_steps.specs.declared.entry.Entry.{Entry};

    ghost Value = { List Entry };

    ghost view = { λ log. log.entries.items };
}

impl PlaceEntries {
    /// No entries.
    pub fn new(alloc: Global) -> PlaceEntries
        ensures { result ≡ [] }
    {
        PlaceEntries {
            entries: Vec::new(alloc),
        }
    }

    /// How many entries there are.
    pub fn len(&self) -> usize
        ensures { result ≡ length self.now }
    {
        self.entries.len()
    }

    /// The i-th entry, from 0. None comes exactly at and past the length.
    pub fn get(&self, i: usize) -> Option<&Entry>
        ensures { option_copied result ≡ slice_get self.now i }
    {
        self.entries.get(i)
    }

    /// Adds an entry, the newest. The Err is want of memory, and hands the entry back.
    pub fn push(&mut self, entry: Entry) -> Result<(), Entry>
        ensures ok { OnOk result (self.new ≡ self.old ++ entry ∷ []) }
        ensures err { OnErr result (self.new ≡ self.old) }
        ensures back { IfErr result (λ back. back ≡ entry) }
    {
        match self.entries.push(entry) {
            Ok(()) => Ok(()),
            Err(failed) => Err(failed.value),
        }
    }
}

/// The logs of places.
#[derive(Debug, Drop)]
pub struct LogList {
    logs: Vec<(PlaceNo, PlaceEntries)>,
}

impl Model for LogList {
    ghost use Rattle.std.specs.Prelude.{List};
    ghost use Rattle.next_ids.specs.declared.ids.PlaceNo.{PlaceNo};
    ghost use Rattle.next_steps.specs.declared.entry.Entry.{Entry};

    ghost Value = { List (PlaceNo × List Entry) };

    ghost view = { λ list. list.logs.items };
}

impl LogList {
    /// No logs.
    pub fn new(alloc: Global) -> LogList
        ensures { result ≡ [] }
    {
        LogList {
            logs: Vec::new(alloc),
        }
    }

    /// How many logs there are.
    pub fn len(&self) -> usize
        ensures { result ≡ length self.now }
    {
        self.logs.len()
    }

    /// Adds a place's log. The Err is want of memory, and hands the log back.
    pub fn push(&mut self, log: (PlaceNo, PlaceEntries)) -> Result<(), (PlaceNo, PlaceEntries)>
        ensures ok { OnOk result (self.new ≡ self.old ++ log ∷ []) }
        ensures err { OnErr result (self.new ≡ self.old) }
        ensures back { IfErr result (λ back. back ≡ log) }
    {
        match self.logs.push(log) {
            Ok(()) => Ok(()),
            Err(failed) => Err(failed.value),
        }
    }
}

// Adds the entries of a place's log.
fn add_log(
    entries: &mut Vec<(PlaceNo, Entry)>,
    place: PlaceNo,
    log: PlaceEntries,
) -> Result<(), NoMemory>
    ensures { OnOk result (entries.new.items ≡ entries.old.items ++ entries_at (place, log)) }
{
    for entry in log.entries {
        entries.push((place, entry))?;
    }
    Ok(())
}

// The entries of all logs, one log after another.
fn all_entries(alloc: Global, logs: LogList) -> Result<Vec<(PlaceNo, Entry)>, NoMemory>
    ensures { IfOk result (λ entries. entries.items ≡ entries_of logs) }
{
    let mut entries = Vec::new(alloc);
    for (place, log) in logs.logs {
        add_log(&mut entries, place, log)?;
    }
    Ok(entries)
}

/// The run of all entries of the logs, by their stamps: by number, and at one number by place. The Err is want of memory.
pub fn merge(alloc: Global, logs: LogList) -> Result<EntryList, NoMemory>
    ensures entries { IfOk result (λ run. IsPermutation (entries_of logs) run) }
    ensures sorted { IfOk result (λ run. IsSortedByKey stamp_of ⟦<Stamp as Ord>⟧.cmp run) }
{
    let mut entries = all_entries(alloc, logs)?;
    entries.sort_by_key(|(place, entry)| Stamp {
        number: entry.number,
        place: *place,
    })?;
    Ok(EntryList::of(entries))
}
