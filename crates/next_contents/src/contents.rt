//! What a shard holds, and what it tells.
ghost use Rattle.std.specs.Prelude.{◌≡◌, ◌≢◌, [], IfOk, IsOk};
ghost use Rattle.std.specs.Option.{option_copied};
ghost use Rattle.std.specs.FinMap as map;
ghost use Rattle.next_ids.specs.Maps.{row_key};
ghost use Rattle.next_rules.specs.Contents.{opening_part, debt_key};
ghost use Rattle.next_rules.specs.Locks.{source_in, lock_in, other_in};
ghost use Rattle.next_rules.specs.Reading.{names_of};
ghost use Rattle.next_rules.specs.Removing.{has_rows};
ghost use Rattle.next_table.specs.Tables.{contents_of as table_of};
ghost use Rattle.next_contents.specs.Shown.{contents_of, place_of};

use crate::debts::Debts;
use crate::locks::{first_job, first_other, first_source};
use next_ids::{
    DeltaList, DirAttr, DirId, JobNo, Kind, Name, NoMemory, Node, PlaceNo, RowList, Ts,
};
use next_maps::{NameMap, NumberMap};
use next_steps::{Debt, DirRec, Row, RowLock};
use next_table::Table;
use std::alloc::Global;

/// What a shard holds: rows, records of directories, the locks of jobs on names, which may stand where no row does, and
/// debts.
#[derive(Drop)]
pub struct Contents {
    pub(crate) alloc: Global,
    pub(crate) table: Table,
    pub(crate) locks: NumberMap<NameMap<RowLock>>,
    pub(crate) debts: Debts,
}

// The table with which the shard with this index opens: shard 0 has the root's record.
fn opening_table(alloc: Global, index: u32) -> Result<Table, NoMemory>
    ensures rows { IfOk result (λ table. (table_of table).rows ≡ map.empty) }
    ensures recs { IfOk result (λ table. (table_of table).recs ≡ (opening_part index).recs) }
    ensures sure { index ≢ 0 → IsOk result }
{
    let mut table = Table::new(alloc);
    if index == 0 {
        let start = Ts {
            moment: 0,
            number: 0,
        };
        let root = DirRec {
            base: DirAttr {
                children: 0,
                subdirs: 0,
                time: start,
            },
            pending: DeltaList::new(alloc),
            back: None,
            owner: None,
            mark: None,
            lock: None,
        };
        table.set_rec(DirId(0), root)?;
    }
    Ok(table)
}

impl Contents {
    /// What the shard with this index opens with: shard 0 has the root's record, and the others have nothing and take no
    /// memory.
    pub fn new(alloc: Global, index: u32) -> Result<Contents, NoMemory>
        ensures sure { index ≢ 0 → IsOk result }
        ensures contents { IfOk result (λ contents. contents_of contents ≡ opening_part index) }
        ensures place { IfOk result (λ contents. place_of contents ≡ record { 0 = index }) }
    {
        let table = opening_table(alloc, index)?;
        Ok(Contents {
            alloc,
            table,
            locks: NumberMap::new(alloc),
            debts: Debts::new(alloc, PlaceNo(index)),
        })
    }

    /// The shard's place.
    pub fn place(&self) -> PlaceNo
        ensures { result ≡ place_of self.now }
    {
        self.debts.place()
    }

    /// The row at a name of the directory. None comes exactly where there is none.
    pub fn row(&self, dir: DirId, name: &Name) -> Option<&Row>
        ensures { option_copied result ≡ map.get (contents_of self.now).rows (row_key dir name.now) }
    {
        self.table.row(dir, name)
    }

    /// The record of the directory. None comes exactly where there is none.
    pub fn rec(&self, dir: DirId) -> Option<&DirRec>
        ensures { option_copied result ≡ map.get (contents_of self.now).recs dir.0 }
    {
        self.table.rec(dir)
    }

    /// The lock on a name of the directory. None comes exactly where there is none.
    #[tactic(auto, using(crate::proofs::Locking::flattening))]
    pub fn lock(&self, dir: DirId, name: &Name) -> Option<RowLock>
        ensures { result ≡ map.get (contents_of self.now).locks (row_key dir name.now) }
    {
        match self.locks.get(dir.0) {
            Some(names) => names.get(name).copied(),
            None => None,
        }
    }

    /// The debt of the node here. None comes exactly where there is none.
    pub fn debt(&self, node: Node) -> Option<Debt>
        ensures { result ≡ map.get (contents_of self.now).debts (debt_key (place_of self.now) node) }
    {
        self.debts.get(node)
    }

    /// The nodes of the directory, by rising name. The Err is want of memory, and comes only where it has rows.
    pub fn rows_of(&self, dir: DirId) -> Result<RowList, NoMemory>
        ensures rows { IfOk result (λ list. list ≡ map.entries (names_of (contents_of self.now) dir.0)) }
        ensures sure { map.entries (names_of (contents_of self.now) dir.0) ≡ [] → IsOk result }
    {
        self.table.rows_of(dir)
    }

    /// Whether the directory has rows.
    pub fn has_rows(&self, dir: DirId) -> bool
        ensures { result ≡ has_rows (contents_of self.now) dir }
    {
        self.table.has_rows(dir)
    }

    /// The job of the least name of the directory that is given up. None comes exactly where there is none.
    pub fn source_in(&self, dir: DirId) -> Option<JobNo>
        ensures { result ≡ source_in (contents_of self.now) dir }
    {
        match self.locks.get(dir.0) {
            Some(names) => first_source(names),
            None => None,
        }
    }

    /// The job of the least locked name of the directory. None comes exactly where there is none.
    pub fn lock_in(&self, dir: DirId) -> Option<JobNo>
        ensures { result ≡ lock_in (contents_of self.now) dir }
    {
        match self.locks.get(dir.0) {
            Some(names) => first_job(names),
            None => None,
        }
    }

    /// The job that keeps this one from replacing the directory, which is that of the least name that another job has
    /// locked in it. None comes where there is none, and for moving the directory.
    pub fn other_in(&self, own: JobNo, kind: Kind, dir: DirId) -> Option<JobNo>
        ensures { result ≡ other_in own kind (contents_of self.now) dir }
    {
        match kind {
            Kind::Moving => None,
            Kind::Replacing => match self.locks.get(dir.0) {
                Some(names) => first_other(own, names),
                None => None,
            },
        }
    }
}
