//! The log of a place.
ghost use Rattle.std.specs.Prelude.{◌≡◌, [], ◌∷◌, ◌++◌, length, slice_get, OnOk, OnErr};
ghost use Rattle.std.specs.Option.{option_copied};

use crate::entry::Entry;
use next_ids::NoMemory;
use std::alloc::Global;
use std::marker::Model;

/// The most entries that a log has.
pub const LOG_LIMIT: usize = 1_048_576;

/// An actor or a place whose last number is this or more makes no step: 2^40.
pub const NUMBER_LIMIT: u64 = 1_099_511_627_776;

/// The entries of a place, in order.
#[derive(Debug, Drop)]
pub struct Log {
    entries: Vec<Entry>,
}

impl Model for Log {
    ghost use Rattle.std.specs.Prelude.{List};
    ghost use Rattle.next_steps.specs.declared.entry.Entry.{Entry};

    ghost Value = { List Entry };

    ghost view = { λ log. log.entries.items };
}

impl Log {
    /// No entries.
    pub fn new(alloc: Global) -> Log
        ensures { result ≡ [] }
    {
        Log {
            entries: Vec::new(alloc),
        }
    }

    /// How many entries there are.
    pub fn len(&self) -> usize
        ensures { result ≡ length self.now }
    {
        self.entries.len()
    }

    /// The i-th entry, from 0. None comes exactly at and past the length.
    pub fn get(&self, i: usize) -> Option<&Entry>
        ensures { option_copied result ≡ slice_get self.now i }
    {
        self.entries.get(i)
    }

    /// Adds the entry.
    pub fn push(&mut self, entry: Entry) -> Result<(), NoMemory>
        ensures ok { OnOk result (self.new ≡ self.old ++ entry ∷ []) }
        ensures err { OnErr result (self.new ≡ self.old) }
    {
        self.entries.push(entry)?;
        Ok(())
    }

    /// Takes the last entry off, if there is one.
    pub fn cut_last(&mut self)
        ensures cut { (kept : _) → (last : _) → self.old ≡ kept ++ last ∷ [] → self.new ≡ kept }
        ensures empty { self.old ≡ [] → self.new ≡ [] }
    {
        let _ = self.entries.pop();
    }
}
