//! The entries of a run.
ghost use Rattle.std.specs.Prelude.{◌≡◌, [], ◌∷◌, ◌++◌, ◌<◌, ◌^◌, length, reverse, slice_get, OnOk, OnErr, IfOk, IfErr};
ghost use Rattle.std.specs.Option.{option_copied};

use next_ids::{NoMemory, PlaceNo};
use next_steps::Entry;
use std::alloc::Global;
use std::marker::Model;

/// A run: entries in the order of their steps, the oldest first, each with the place of its step.
#[derive(Debug, Drop)]
pub struct EntryList {
    entries: Vec<(PlaceNo, Entry)>,
}

impl Model for EntryList {
    ghost use Rattle.std.specs.Prelude.{List};
    ghost use Rattle.next_ids.specs.declared.ids.PlaceNo.{PlaceNo};
    ghost use Rattle.next_steps.specs.declared.entry.Entry.{Entry};

    ghost Value = { List (PlaceNo × Entry) };

    ghost view = { λ run. run.entries.items };
}

impl EntryList {
    /// No entries.
    pub fn new(alloc: Global) -> EntryList
        ensures { result ≡ [] }
    {
        EntryList {
            entries: Vec::new(alloc),
        }
    }

    /// These entries.
    pub(crate) fn of(entries: Vec<(PlaceNo, Entry)>) -> EntryList
        ensures { result ≡ entries.items }
    {
        EntryList { entries }
    }

    /// How many entries there are.
    pub fn len(&self) -> usize
        ensures { result ≡ length self.now }
    {
        self.entries.len()
    }

    /// The i-th entry and its place, from 0. None comes exactly at and past the length.
    pub fn get(&self, i: usize) -> Option<&(PlaceNo, Entry)>
        ensures { option_copied result ≡ slice_get self.now i }
    {
        self.entries.get(i)
    }

    /// The entries.
    pub fn as_slice(&self) -> &[(PlaceNo, Entry)]
        ensures { result.now ≡ self.now }
    {
        self.entries.as_slice()
    }

    /// Adds an entry, the newest. The Err is want of memory, and hands the entry back.
    pub fn push(&mut self, entry: (PlaceNo, Entry)) -> Result<(), (PlaceNo, Entry)>
        ensures ok { OnOk result (self.new ≡ self.old ++ entry ∷ []) }
        ensures err { OnErr result (self.new ≡ self.old) }
        ensures back { IfErr result (λ back. back ≡ entry) }
    {
        match self.entries.push(entry) {
            Ok(()) => Ok(()),
            Err(failed) => Err(failed.value),
        }
    }

    /// Turns the order round.
    pub fn reverse(&mut self)
        ensures { self.new ≡ reverse self.old }
    {
        self.entries.reverse();
    }

    /// A copy.
    pub fn copy(&self) -> Result<EntryList, NoMemory>
        ensures { IfOk result (λ copy. copy ≡ self.now) }
    {
        Ok(EntryList {
            entries: self.entries.clone()?,
        })
    }
}
