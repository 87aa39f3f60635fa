//! How a store serves an ask.
ghost use Rattle.std.specs.Prelude.{◌≡◌, ◌↔◌, ℕ, ◌<◌, ◌≤◌, ◌^◌, ◌+◌, ◌++◌, ◌∷◌, [], max, true, IfOk, IsOk, OnOk, OnErr, Err, length, slice_get};
ghost use Rattle.std.specs.Option.{option_copied, option_map};
ghost use Rattle.std.specs.Ordering.{nat_cmp};
ghost use Rattle.std.specs.FinMap as map;
ghost use Rattle.std.specs.Map.Iter.{ShowsInOrder, deref_pair};
ghost use Rattle.cfs_ids.specs.declared.ids.FileId.{FileId};
ghost use Rattle.cfs_steps.specs.declared.contents.FileRec.{FileRec};
ghost use Rattle.cfs_maps.specs.Walks.{entries_after, first_of};
ghost use Rattle.cfs_steps.specs.Asks.{place_of};
ghost use Rattle.cfs_rules.specs.Homes.{IsOwnStore};
ghost use Rattle.cfs_rules.specs.Places.{serve_store, entry_by, number_after, is_full};
ghost use Rattle.std.proofs.Props.{props};

use crate::table::{answer, change};
use cfs_ids::{Actor, FileId, NoMemory, PlaceNo, Stamp, Ts, later, number_of};
use cfs_maps::NumberMap;
use cfs_steps::{Ask, Entry, FileRec, LOG_LIMIT, Log, NUMBER_LIMIT, ServeFault};
use std::alloc::Global;
use std::collections::btree_map::Iter;

/// A store of the service. Its place number is 64 plus its index.
#[derive(Drop)]
pub struct Store {
    index: u32,
    files: NumberMap<FileRec>,
    log: Log,
    last: u64,
    ghost small: { index < 64 },
    ghost few: { map.len files ≤ length log },
    ghost short: { length log ≤ 1048576 },
    ghost own: { IsOwnStore index files } by { Prim.hlevel props },
}

impl Store {
    ghost use Rattle.cfs_store.specs.Stores.{contents_of, log_of, last_of, index_of};

    /// The store with this index, below 64, and without a file. It takes no memory.
    pub fn new(alloc: Global, index: u32) -> Result<Store, NoMemory>
        requires { index < 64 }
        ensures sure { IsOk result }
        ensures contents { IfOk result (λ store. contents_of store ≡ map.empty) }
        ensures log { IfOk result (λ store. log_of store ≡ []) }
        ensures last { IfOk result (λ store. last_of store ≡ 0) }
        ensures index { IfOk result (λ store. index_of store ≡ index) }
    {
        Ok(Store {
            index,
            files: NumberMap::new(alloc),
            log: Log::new(alloc),
            last: 0,
        })
    }

    /// How many entries the log has.
    pub fn count(&self) -> usize
        ensures { result ≡ length (log_of self.now) }
    {
        self.log.len()
    }

    /// The last number, 0 before the first step.
    pub fn last(&self) -> u64
        ensures { result ≡ last_of self.now }
    {
        self.last
    }

    /// The i-th entry of the log, from 0. None comes exactly at and past the count.
    pub fn entry(&self, i: usize) -> Option<&Entry>
        ensures { option_copied result ≡ slice_get (log_of self.now) i }
    {
        self.log.get(i)
    }

    /// The record of the file. None comes exactly where there is no such record.
    pub fn file(&self, file: FileId) -> Option<&FileRec>
        ensures { option_copied result ≡ map.get (contents_of self.now) file.0 }
    {
        self.files.get(file.0)
    }

    /// The files and their records, by rising files.
    pub fn files(&self) -> Iter<'_, u64, FileRec>
        ensures rest { result ≡ map.entries (contents_of self.now) }
        ensures runs { ShowsInOrder (deref_pair {K = ℕ} {X = FileRec}) }
        ensures fits { map.len (contents_of self.now) ≤ 1048576 }
    {
        self.files.iter()
    }

    /// The first file above `after`, or the first of all, with its record. None comes exactly where there is none.
    pub fn next_file(&self, after: Option<FileId>) -> Option<(FileId, &FileRec)>
        ensures { option_map (λ entry. (entry.0.0, entry.1.now)) result ≡ first_of (entries_after nat_cmp (option_map (λ (file : FileId). file.0) after) (map.entries (contents_of self.now))) }
    {
        match self.files.next(after.map(|file| file.0)) {
            Some((file, rec)) => Some((FileId(file), rec)),
            None => None,
        }
    }

    // Whether the store serves nothing more.
    fn is_full(&self, last: Ts) -> bool
        ensures { result ≡ is_full (length (log_of self.now)) last (last_of self.now) }
    {
        self.log.len() >= LOG_LIMIT || number_of(later(last, self.last)) >= NUMBER_LIMIT
    }

    /// Serves an ask of the actor, whose last number is `last`, by the store's table, and logs the step. The ask's place
    /// is to be this store. LogFull comes exactly where the log has 1,048,576 entries, or a last number is 2^40 or more. On
    /// Err the store is as before.
    pub fn serve(&mut self, actor: Actor, last: Ts, ask: &Ask) -> Result<Entry, ServeFault>
        requires here { (place_of ask.now).0 ≡ 64 + index_of self.old }
        ensures entry { let number = number_after last (last_of self.old) in IfOk result (λ entry. entry ≡ entry_by actor number ask.now (serve_store (contents_of self.old) (record { number = number; place = record { 0 = 64 + index_of self.old } }) ask.now)) }
        ensures contents { let number = number_after last (last_of self.old) in OnOk result (contents_of self.new ≡ (serve_store (contents_of self.old) (record { number = number; place = record { 0 = 64 + index_of self.old } }) ask.now).contents) }
        ensures log { IfOk result (λ entry. log_of self.new ≡ log_of self.old ++ entry ∷ []) }
        ensures last { OnOk result (last_of self.new ≡ number_after last (last_of self.old)) }
        ensures full { (result ≡ Err ServeFault.LogFull) ↔ (is_full (length (log_of self.old)) last (last_of self.old) ≡ true) }
        ensures err { OnErr result (self.new ≡ self.old) }
        ensures index { index_of self.new ≡ index_of self.old }
    {
        if self.is_full(last) {
            return Err(ServeFault::LogFull);
        }
        let at = Stamp {
            number: number_of(later(last, self.last)) + 1,
            place: PlaceNo(64 + self.index),
        };
        let entry = Entry {
            actor,
            number: at.number,
            ask: ask.copy()?,
            answer: answer(&self.files, at, ask),
            moved: None,
        };
        self.log.push(entry.copy()?)?;
        match change(&mut self.files, at, ask) {
            Ok(()) => {
                self.last = at.number;
                Ok(entry)
            }
            Err(NoMemory) => {
                self.log.cut_last();
                Err(ServeFault::NoMemory)
            }
        }
    }
}
