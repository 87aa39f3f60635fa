//! How a store serves an ask.
ghost use Rattle.std.specs.Prelude.{◌≡◌, ◌≢◌, ◌↔◌, ℕ, ◌<◌, ◌≤◌, ◌^◌, ◌+◌, ◌++◌, ◌∷◌, [], max, true, IfOk, OnOk, OnErr, Err, length, slice_get};
ghost use Rattle.std.specs.Option.{option_copied, option_map};
ghost use Rattle.std.specs.Ordering.{nat_cmp};
ghost use Rattle.std.specs.FinMap as map;
ghost use Rattle.std.specs.Map.Iter.{ShowsInOrder, deref_pair};
ghost use Rattle.next_ids.specs.declared.ids.FileId.{FileId};
ghost use Rattle.next_steps.specs.declared.contents.FileRec.{FileRec};
ghost use Rattle.next_maps.specs.Walks.{entries_after, first_of};
ghost use Rattle.next_steps.specs.Asks.{place_of};
ghost use Rattle.next_rules.specs.Homes.{IsOwnStore};
ghost use Rattle.next_rules.specs.Stores.{serve_store};
ghost use Rattle.next_rules.specs.Contents.{entry_by, number_after};
ghost use Rattle.next_journal.specs.Journals.{log_of as written, is_full};
ghost use Rattle.std.proofs.Props.{props};

use crate::table::{line_of, make};
use next_ids::{Actor, FileId, NoMemory, PlaceNo, Stamp};
use next_journal::Journal;
use next_maps::NumberMap;
use next_steps::{Ask, Entry, FileRec, ServeFault};
use std::alloc::Global;
use std::collections::btree_map::Iter;

/// A store of the service. Its place number is 64 plus its index.
#[derive(Drop)]
pub struct Store {
    alloc: Global,
    index: u32,
    files: NumberMap<FileRec>,
    journal: Journal,
    ghost small: { index < 64 },
    ghost few: { map.len files ≤ length (written journal) },
    ghost own: { IsOwnStore index files } by { Prim.hlevel props },
}

impl Store {
    ghost use Rattle.next_store.specs.Stores.{contents_of, journal_of, log_of, last_of, index_of};

    /// The store with this index, below 64, and without a file.
    pub fn new(alloc: Global, index: u32) -> Store
        requires { index < 64 }
        ensures contents { contents_of result ≡ map.empty }
        ensures log { log_of result ≡ [] }
        ensures last { last_of result ≡ 0 }
        ensures index { index_of result ≡ index }
    {
        Store {
            alloc,
            index,
            files: NumberMap::new(alloc),
            journal: Journal::new(alloc),
        }
    }

    /// How many entries the log has.
    pub fn count(&self) -> usize
        ensures { result ≡ length (log_of self.now) }
    {
        self.journal.count()
    }

    /// The last number, 0 before the first step.
    pub fn last(&self) -> u64
        ensures { result ≡ last_of self.now }
    {
        self.journal.last()
    }

    /// The i-th entry of the log, from 0. None comes exactly at and past the count.
    pub fn entry(&self, i: usize) -> Option<&Entry>
        ensures { option_copied result ≡ slice_get (log_of self.now) i }
    {
        self.journal.entry(i)
    }

    /// The record of the file. None comes exactly where there is no such record.
    pub fn file(&self, file: FileId) -> Option<&FileRec>
        ensures { option_copied result ≡ map.get (contents_of self.now) file.0 }
    {
        self.files.get(file.0)
    }

    /// The files and their records, by rising files.
    pub fn files(&self) -> Iter<'_, u64, FileRec>
        ensures rest { result ≡ map.entries (contents_of self.now) }
        ensures runs { ShowsInOrder (deref_pair {K = ℕ} {X = FileRec}) }
        ensures fits { map.len (contents_of self.now) ≤ 1048576 }
    {
        self.files.iter()
    }

    /// The first file above `after`, or the first of all, with its record. None comes exactly where there is none.
    pub fn next_file(&self, after: Option<FileId>) -> Option<(FileId, &FileRec)>
        ensures { option_map (λ entry. (entry.0.0, entry.1.now)) result ≡ first_of (entries_after nat_cmp (option_map (λ (file : FileId). file.0) after) (map.entries (contents_of self.now))) }
    {
        match self.files.next(after.map(|file| file.0)) {
            Some((file, rec)) => Some((FileId(file), rec)),
            None => None,
        }
    }

    /// Serves an ask of the actor, whose last number is `last`, by the store's table, and logs the step, which is made
    /// at the moment. The ask's place is to be this store. LogFull comes exactly where the log has 1,048,576 entries, or a
    /// last number is 2^40 or more. On Err the store is as before.
    pub fn serve(
        &mut self,
        actor: Actor,
        last: u64,
        moment: u64,
        ask: &Ask,
    ) -> Result<Entry, ServeFault>
        requires here { (place_of ask.now).0 ≡ 64 + index_of self.old }
        ensures entry { let number = number_after last (last_of self.old) in IfOk result (λ entry. entry ≡ entry_by actor number moment ask.now (serve_store (contents_of self.old) (record { number = number; place = record { 0 = 64 + index_of self.old } }) moment ask.now)) }
        ensures contents { let number = number_after last (last_of self.old) in OnOk result (contents_of self.new ≡ (serve_store (contents_of self.old) (record { number = number; place = record { 0 = 64 + index_of self.old } }) moment ask.now).contents) }
        ensures log { IfOk result (λ entry. log_of self.new ≡ log_of self.old ++ entry ∷ []) }
        ensures last { OnOk result (last_of self.new ≡ number_after last (last_of self.old)) }
        ensures full { (result ≡ Err ServeFault.LogFull) ↔ (is_full (journal_of self.old) last ≡ true) }
        ensures ready { result ≢ Err ServeFault.NotYet }
        ensures err { OnErr result (self.new ≡ self.old) }
        ensures index { index_of self.new ≡ index_of self.old }
    {
        if self.journal.is_full(last) {
            return Err(ServeFault::LogFull);
        }
        let at = Stamp {
            number: self.journal.next_number(last),
            place: PlaceNo(64 + self.index),
        };
        let line = line_of(self.alloc, &self.files, at, moment, ask)?;
        let before = self.journal.last();
        let entry = self
            .journal
            .write(actor, last, moment, ask, line.answer, line.moved)?;
        match make(&mut self.files, line.change) {
            Ok(()) => Ok(entry),
            Err(NoMemory) => {
                self.journal.take_back(entry, before);
                Err(ServeFault::NoMemory)
            }
        }
    }
}
