//! The table of a shard.
ghost use Rattle.std.specs.Prelude.{◌≡◌, ◌||◌, ℕ, [], IfOk, OnOk, IfErr, OnErr, IsSome, IsOk, ◌^◌, ◌<◌};
ghost use Rattle.std.specs.Option.{option_copied, option_map};
ghost use Rattle.std.specs.Ordering.{nat_cmp};
ghost use Rattle.std.specs.Cmp.Lexicographic.{slice_cmp};
ghost use Rattle.std.specs.FinMap as map;
ghost use Rattle.std.specs.Map.Iter.{ShowsInOrder, deref_pair};
ghost use Rattle.cfs_ids.specs.declared.ids.DirId.{DirId};
ghost use Rattle.cfs_ids.specs.Maps.{row_key};
ghost use Rattle.cfs_steps.specs.declared.contents.DirRec.{DirRec};
ghost use Rattle.cfs_maps.specs.Walks.{entries_after, first_of};
ghost use Rattle.cfs_rules.specs.Places.{names_of};
ghost use Rattle.std.specs.List.{list_any};
ghost use Rattle.cfs_ids.specs.Namespace.{is_node};
ghost use Rattle.cfs_maps.specs.NodeSets.{has_node};
ghost use Rattle.cfs_rules.specs.Trees.{is_named, is_placed};
ghost use Rattle.cfs_table.specs.Tables.{contents_of};

use crate::listing::{add_all, any_names, listed};
use crate::walk::next_in;
use cfs_ids::{DirId, FileId, Name, NoMemory, Node, RowList};
use cfs_maps::{NameMap, NodeSet, NumberMap};
use cfs_steps::{DirRec, Row};
use std::alloc::Global;
use std::collections::btree_map::Iter;

/// A finite map of rows, from a directory and a name, and a finite map of records, from a directory. Each call that
/// writes changes its key alone.
#[derive(Drop)]
pub struct Table {
    alloc: Global,
    rows: NumberMap<NameMap<Row>>,
    recs: NumberMap<DirRec>,
}

impl Table {
    /// No rows and no records.
    pub fn new(alloc: Global) -> Table
        ensures rows { (contents_of result).rows ≡ map.empty }
        ensures recs { (contents_of result).recs ≡ map.empty }
    {
        Table {
            alloc,
            rows: NumberMap::new(alloc),
            recs: NumberMap::new(alloc),
        }
    }

    /// The row at a name of the directory. None comes exactly where there is none.
    #[tactic(auto, using(crate::proofs::Flattened::flattening))]
    pub fn row(&self, dir: DirId, name: &Name) -> Option<&Row>
        ensures { option_copied result ≡ map.get (contents_of self.now).rows (row_key dir name.now) }
    {
        match self.rows.get(dir.0) {
            Some(names) => names.get(name),
            None => None,
        }
    }

    /// The nodes of the directory, by rising name. The Err is want of memory, and comes only where it has rows.
    pub fn rows_of(&self, dir: DirId) -> Result<RowList, NoMemory>
        ensures rows { IfOk result (λ list. list ≡ map.entries (names_of (contents_of self.now) dir.0)) }
        ensures sure { map.entries (names_of (contents_of self.now) dir.0) ≡ [] → IsOk result }
    {
        match self.rows.get(dir.0) {
            Some(names) => listed(self.alloc, names),
            None => Ok(RowList::new(self.alloc)),
        }
    }

    /// Sets the row at a name of the directory, and answers what stood there. The Err is want of memory for a new row: the
    /// table is as before, and the name and the row come back.
    #[tactic(auto, using(crate::proofs::Flattened::flattening))]
    pub fn set_row(&mut self, dir: DirId, name: Name, row: Row) -> Result<Option<Row>, (Name, Row)>
        ensures rows { OnOk result ((contents_of self.new).rows ≡ map.insert (contents_of self.old).rows (row_key dir name) row) }
        ensures recs { (contents_of self.new).recs ≡ (contents_of self.old).recs }
        ensures before { IfOk result (λ before. before ≡ map.get (contents_of self.old).rows (row_key dir name)) }
        ensures err { OnErr result (self.new ≡ self.old) }
        ensures back { IfErr result (λ back. back ≡ (name, row)) }
        ensures there { IsSome (map.get (contents_of self.old).rows (row_key dir name)) → IsOk result }
    {
        self.rows.set_name(self.alloc, dir.0, name, row)
    }

    /// Takes the row at a name of the directory out, and answers what stood there. None comes exactly where there was
    /// none.
    pub fn cut_row(&mut self, dir: DirId, name: &Name) -> Option<Row>
        ensures rows { (contents_of self.new).rows ≡ map.remove (contents_of self.old).rows (row_key dir name.now) }
        ensures recs { (contents_of self.new).recs ≡ (contents_of self.old).recs }
        ensures before { result ≡ map.get (contents_of self.old).rows (row_key dir name.now) }
    {
        self.rows.cut_name(dir.0, name)
    }

    /// The record of the directory. None comes exactly where there is none.
    pub fn rec(&self, dir: DirId) -> Option<&DirRec>
        ensures { option_copied result ≡ map.get (contents_of self.now).recs dir.0 }
    {
        self.recs.get(dir.0)
    }

    /// Sets the record of the directory, and answers what stood there. The Err is want of memory for a new record: the
    /// table is as before, and the record comes back.
    pub fn set_rec(&mut self, dir: DirId, rec: DirRec) -> Result<Option<DirRec>, DirRec>
        ensures recs { OnOk result ((contents_of self.new).recs ≡ map.insert (contents_of self.old).recs dir.0 rec) }
        ensures rows { (contents_of self.new).rows ≡ (contents_of self.old).rows }
        ensures before { IfOk result (λ before. before ≡ map.get (contents_of self.old).recs dir.0) }
        ensures err { OnErr result (self.new ≡ self.old) }
        ensures back { IfErr result (λ back. back ≡ rec) }
        ensures there { IsSome (map.get (contents_of self.old).recs dir.0) → IsOk result }
    {
        match self.recs.set(dir.0, rec) {
            Ok(before) => Ok(before),
            Err((_, rec)) => Err(rec),
        }
    }

    /// Takes the record of the directory out, and answers what stood there. None comes exactly where there was none.
    pub fn cut_rec(&mut self, dir: DirId) -> Option<DirRec>
        ensures recs { (contents_of self.new).recs ≡ map.remove (contents_of self.old).recs dir.0 }
        ensures rows { (contents_of self.new).rows ≡ (contents_of self.old).rows }
        ensures before { result ≡ map.get (contents_of self.old).recs dir.0 }
    {
        self.recs.cut(dir.0)
    }

    /// The first row above the name of the directory, or the first of all: by rising directories, and in each by rising
    /// names. None comes exactly where there is none.
    pub fn next_row(&self, after: Option<(DirId, &Name)>) -> Option<(DirId, &Name, &Row)>
        ensures { option_map (λ entry. (row_key entry.0 entry.1.now, entry.2.now)) result ≡ first_of (entries_after (slice_cmp nat_cmp) (option_map (λ place. row_key place.0 place.1.now) after.entry) (map.entries (contents_of self.now).rows)) }
    {
        next_in(&self.rows, after)
    }

    /// The records, by rising directories.
    pub fn recs(&self) -> Iter<'_, u64, DirRec>
        ensures rest { result ≡ map.entries (contents_of self.now).recs }
        ensures runs { ShowsInOrder (deref_pair {K = ℕ} {X = DirRec}) }
        ensures fits { map.len (contents_of self.now).recs < 2 ^ 63 }
    {
        self.recs.iter()
    }

    /// The first record above `after`, or the first of all. None comes exactly where there is none.
    pub fn next_rec(&self, after: Option<DirId>) -> Option<(DirId, &DirRec)>
        ensures { option_map (λ entry. (entry.0.0, entry.1.now)) result ≡ first_of (entries_after nat_cmp (option_map (λ (dir : DirId). dir.0) after) (map.entries (contents_of self.now).recs)) }
    {
        match self.recs.next(after.map(|dir| dir.0)) {
            Some((dir, rec)) => Some((DirId(dir), rec)),
            None => None,
        }
    }

    /// Whether some row names the file.
    pub fn names_file(&self, file: FileId) -> bool
        ensures { result ≡ is_named (contents_of self.now) file.0 }
    {
        any_names(&self.rows, Node::File(file))
    }

    /// Whether some row names the directory.
    pub fn names_dir(&self, dir: DirId) -> bool
        ensures { result ≡ is_placed (contents_of self.now) dir.0 }
    {
        any_names(&self.rows, Node::Dir(dir))
    }

    /// Adds the nodes that the rows name to a set. The Err is want of memory.
    pub fn add_named(&self, nodes: &mut NodeSet) -> Result<(), NoMemory>
        ensures { OnOk result ((x : _) → has_node nodes.new x ≡ (has_node nodes.old x || list_any (λ e. is_node x e.1.node) (map.entries (contents_of self.now).rows))) }
    {
        add_all(nodes, &self.rows)?;
        Ok(())
    }
}
