//! How a shard serves an ask.
ghost use Rattle.std.specs.Prelude.{◌≡◌, ◌≢◌, ◌||◌, ◌↔◌, ℕ, ◌<◌, ◌≤◌, ◌^◌, ◌+◌, ◌++◌, ◌∷◌, [], max, true, Some, IfOk, IsOk, OnOk, OnErr, Err, length, slice_get};
ghost use Rattle.std.specs.Option.{option_copied, option_map};
ghost use Rattle.std.specs.Ordering.{nat_cmp};
ghost use Rattle.std.specs.Cmp.Lexicographic.{slice_cmp};
ghost use Rattle.std.specs.FinMap as map;
ghost use Rattle.std.specs.Map.Iter.{ShowsInOrder, deref_pair};
ghost use Rattle.cfs_ids.specs.declared.ids.DirId.{DirId};
ghost use Rattle.cfs_ids.specs.Maps.{row_key};
ghost use Rattle.cfs_steps.specs.declared.contents.DirRec.{DirRec};
ghost use Rattle.cfs_maps.specs.Walks.{entries_after, first_of};
ghost use Rattle.cfs_table.specs.Tables.{contents_of as table_of};
ghost use Rattle.cfs_rules.specs.Places.{serve_shard, opening_part, entry_by, number_after, is_full, names_of};
ghost use Rattle.cfs_rules.specs.Facts.{CountsHold};
ghost use Rattle.cfs_rules.specs.Homes.{IsOwnShard};
ghost use Rattle.cfs_steps.specs.Asks.{place_of};
ghost use Rattle.cfs_table.specs.Flat.{flat};
ghost use Rattle.std.specs.List.{list_any};
ghost use Rattle.cfs_ids.specs.Namespace.{is_node};
ghost use Rattle.cfs_maps.specs.NodeSets.{has_node};
ghost use Rattle.cfs_rules.specs.Trees.{is_named, is_placed};
ghost use Rattle.std.proofs.Props.{props};
ghost use Rattle.cfs_shard.specs.Bounds.{CountsWithin, IsKnown};

use crate::answers::tell;
use crate::changes::change_unless;
use crate::locks::met;
use cfs_ids::{
    Actor, DirAttr, DirId, FileId, Name, NoMemory, PlaceNo, RowList, Stamp, Ts, later, number_of,
};
use cfs_maps::{NameMap, NodeSet, NumberMap};
use cfs_steps::{Ask, Entry, LOG_LIMIT, Log, NUMBER_LIMIT, RowLock, ServeFault};
use cfs_table::{DirRec, Row, Table, next_in};
use std::alloc::Global;
use std::collections::btree_map::Iter;

/// A shard of the service. Its place number is its index.
#[derive(Drop)]
pub struct Shard {
    index: u32,
    table: Table,
    locks: NumberMap<NameMap<RowLock>>,
    log: Log,
    last: u64,
    ghost small: { index < 64 },
    ghost counts: { CountsWithin (length log) (table_of table) } by { Prim.hlevel props },
    ghost few: { map.len (table_of table).recs ≤ length log + 1 },
    ghost short: { length log ≤ 1048576 },
    ghost own: { IsOwnShard index (record (table_of table) { locks = flat locks }) } by { Prim.hlevel props },
    ghost known: { IsKnown last (record (table_of table) { locks = flat locks }) } by { Prim.hlevel props },
}

// The table with which the shard with this index opens: shard 0 has the root's record.
fn opening_table(alloc: Global, index: u32) -> Result<Table, NoMemory>
    ensures table { IfOk result (λ table. table_of table ≡ opening_part index) }
    ensures sure { index ≢ 0 → IsOk result }
{
    let mut table = Table::new(alloc);
    if index != 0 {
        return Ok(table);
    }
    let attr = DirAttr {
        children: 0,
        subdirs: 0,
        time: 0,
    };
    let rec = DirRec {
        attr,
        back: None,
        owner: None,
        lock: None,
    };
    match table.set_rec(DirId(0), rec) {
        Ok(_) => Ok(table),
        Err(_) => Err(NoMemory),
    }
}

impl Shard {
    ghost use Rattle.cfs_shard.specs.Shards.{contents_of, log_of, last_of, index_of, shown};

    /// The shard with this index, below 64, without a lock. Shard 0 has the root's record; the others have none, and take
    /// no memory.
    pub fn new(alloc: Global, index: u32) -> Result<Shard, NoMemory>
        requires { index < 64 }
        ensures sure { index ≢ 0 → IsOk result }
        ensures contents { IfOk result (λ shard. contents_of shard ≡ opening_part index) }
        ensures log { IfOk result (λ shard. log_of shard ≡ []) }
        ensures last { IfOk result (λ shard. last_of shard ≡ 0) }
        ensures index { IfOk result (λ shard. index_of shard ≡ index) }
    {
        let table = opening_table(alloc, index)?;
        Ok(Shard {
            index,
            table,
            locks: NumberMap::new(alloc),
            log: Log::new(alloc),
            last: 0,
        })
    }

    /// How many entries the log has.
    pub fn count(&self) -> usize
        ensures { result ≡ length (log_of self.now) }
    {
        self.log.len()
    }

    /// The last number, 0 before the first step.
    pub fn last(&self) -> u64
        ensures { result ≡ last_of self.now }
    {
        self.last
    }

    /// The i-th entry of the log, from 0. None comes exactly at and past the count.
    pub fn entry(&self, i: usize) -> Option<&Entry>
        ensures { option_copied result ≡ slice_get (log_of self.now) i }
    {
        self.log.get(i)
    }

    /// The nodes of the directory, by rising name. The Err is want of memory, and comes only where it has rows.
    pub fn rows_of(&self, dir: DirId) -> Result<RowList, NoMemory>
        ensures rows { IfOk result (λ list. list ≡ map.entries (names_of (contents_of self.now) dir.0)) }
        ensures sure { map.entries (names_of (contents_of self.now) dir.0) ≡ [] → IsOk result }
    {
        self.table.rows_of(dir)
    }

    /// The first row above the name of the directory, or the first of all: by rising directories, and in each by rising
    /// names. None comes exactly where there is no such row.
    pub fn next_row(&self, after: Option<(DirId, &Name)>) -> Option<(DirId, &Name, &Row)>
        ensures { option_map (λ entry. (row_key entry.0 entry.1.now, entry.2.now)) result ≡ first_of (entries_after (slice_cmp nat_cmp) (option_map (λ place. row_key place.0 place.1.now) after.entry) (map.entries (contents_of self.now).rows)) }
    {
        self.table.next_row(after)
    }

    /// The first lock above the name of the directory, or the first of all: by rising directories, and in each by rising
    /// names. None comes exactly where there is no such lock.
    pub fn next_lock(&self, after: Option<(DirId, &Name)>) -> Option<(DirId, &Name, &RowLock)>
        ensures { option_map (λ entry. (row_key entry.0 entry.1.now, entry.2.now)) result ≡ first_of (entries_after (slice_cmp nat_cmp) (option_map (λ place. row_key place.0 place.1.now) after.entry) (map.entries (contents_of self.now).locks)) }
    {
        next_in(&self.locks, after)
    }

    /// The record of the directory. None comes exactly where there is no such record.
    pub fn rec(&self, dir: DirId) -> Option<&DirRec>
        ensures { option_copied result ≡ map.get (contents_of self.now).recs dir.0 }
    {
        self.table.rec(dir)
    }

    /// The records, by rising directories.
    pub fn recs(&self) -> Iter<'_, u64, DirRec>
        ensures rest { result ≡ map.entries (contents_of self.now).recs }
        ensures runs { ShowsInOrder (deref_pair {K = ℕ} {X = DirRec}) }
        ensures fits { map.len (contents_of self.now).recs ≤ 1048577 }
    {
        self.table.recs()
    }

    /// The first record above `after`, or the first of all. None comes exactly where there is none.
    pub fn next_rec(&self, after: Option<DirId>) -> Option<(DirId, &DirRec)>
        ensures { option_map (λ entry. (entry.0.0, entry.1.now)) result ≡ first_of (entries_after nat_cmp (option_map (λ (dir : DirId). dir.0) after) (map.entries (contents_of self.now).recs)) }
    {
        self.table.next_rec(after)
    }

    /// Whether some row names the file.
    pub fn names_file(&self, file: FileId) -> bool
        ensures { result ≡ is_named (contents_of self.now) file.0 }
    {
        self.table.names_file(file)
    }

    /// Whether some row names the directory.
    pub fn names_dir(&self, dir: DirId) -> bool
        ensures { result ≡ is_placed (contents_of self.now) dir.0 }
    {
        self.table.names_dir(dir)
    }

    /// Adds the nodes that the rows name to a set. The Err is want of memory.
    pub fn add_named(&self, nodes: &mut NodeSet) -> Result<(), NoMemory>
        ensures { OnOk result ((x : _) → has_node nodes.new x ≡ (has_node nodes.old x || list_any (λ e. is_node x e.1.node) (map.entries (contents_of self.now).rows))) }
    {
        self.table.add_named(nodes)
    }

    // Whether the shard serves nothing more.
    fn is_full(&self, last: Ts) -> bool
        ensures { result ≡ is_full (length (log_of self.now)) last (last_of self.now) }
    {
        self.log.len() >= LOG_LIMIT || number_of(later(last, self.last)) >= NUMBER_LIMIT
    }

    /// Serves an ask of the actor, whose last number is `last`, by the shard's table, and logs the step. The ask's place
    /// is to be this shard. LogFull comes exactly where the log has 1,048,576 entries, or a last number is 2^40 or more. On
    /// Err the shard is as before.
    pub fn serve(&mut self, actor: Actor, last: Ts, ask: &Ask) -> Result<Entry, ServeFault>
        requires here { (place_of ask.now).0 ≡ index_of self.old }
        ensures entry { let number = number_after last (last_of self.old) in IfOk result (λ entry. entry ≡ entry_by actor number ask.now (serve_shard (contents_of self.old) (record { number = number; place = record { 0 = index_of self.old } }) ask.now)) }
        ensures contents { let number = number_after last (last_of self.old) in OnOk result (contents_of self.new ≡ (serve_shard (contents_of self.old) (record { number = number; place = record { 0 = index_of self.old } }) ask.now).contents) }
        ensures log { IfOk result (λ entry. log_of self.new ≡ log_of self.old ++ entry ∷ []) }
        ensures last { OnOk result (last_of self.new ≡ number_after last (last_of self.old)) }
        ensures full { (result ≡ Err ServeFault.LogFull) ↔ (is_full (length (log_of self.old)) last (last_of self.old) ≡ true) }
        ensures err { OnErr result (shown self.new ≡ shown self.old) }
        ensures index { index_of self.new ≡ index_of self.old }
        ensures counts { CountsHold (contents_of self.old) → CountsHold (contents_of self.new) }
    {
        if self.is_full(last) {
            return Err(ServeFault::LogFull);
        }
        let at = Stamp {
            number: number_of(later(last, self.last)) + 1,
            place: PlaceNo(self.index),
        };
        let job = met(&self.locks, &self.table, ask);
        let told = tell(job, &self.table, at, ask)?;
        let entry = Entry {
            actor,
            number: at.number,
            ask: ask.copy()?,
            answer: told.answer,
            moved: told.moved,
        };
        self.log.push(entry.copy()?)?;
        match change_unless(job, &mut self.table, at, ask) {
            Ok(()) => {
                self.last = at.number;
                Ok(entry)
            }
            Err(NoMemory) => {
                self.log.cut_last();
                Err(ServeFault::NoMemory)
            }
        }
    }
}
