//! The table of a shard.
ghost use Rattle.std.specs.Prelude.{◌≡◌, ◌||◌, ◌&&◌, ℕ, [], IfOk, OnOk, OnErr, IfErr, IsSome, IsOk, ◌^◌, ◌<◌};
ghost use Rattle.std.specs.Option.{option_copied, option_map};
ghost use Rattle.std.specs.Ordering.{nat_cmp};
ghost use Rattle.std.specs.Cmp.Lexicographic.{slice_cmp};
ghost use Rattle.std.specs.FinMap as map;
ghost use Rattle.std.specs.Map.Iter.{ShowsInOrder, deref_pair};
ghost use Rattle.std.specs.List.{list_any};
ghost use Rattle.next_ids.specs.declared.ids.DirId.{DirId};
ghost use Rattle.next_ids.specs.Maps.{row_key, lies_in};
ghost use Rattle.next_ids.specs.Namespace.{is_node, names_file, names_dir};
ghost use Rattle.next_steps.specs.declared.contents.DirRec.{DirRec};
ghost use Rattle.next_maps.specs.NodeSets.{has_node};
ghost use Rattle.next_maps.specs.Walks.{entries_after, first_of};
ghost use Rattle.next_rules.specs.Changes.{set_row, cut_row, set_rec, cut_rec};
ghost use Rattle.next_rules.specs.Reading.{names_of};
ghost use Rattle.next_rules.specs.Removing.{has_rows};
ghost use Rattle.next_table.specs.Tables.{contents_of};

use crate::listing::{add_all, any_names, directory_names, listed};
use crate::walk::next_in;
use next_ids::{DirId, FileId, Name, NoMemory, Node, RowList, Stamp};
use next_maps::{NameMap, NodeSet, NumberMap};
use next_steps::{DirRec, Row};
use std::alloc::Global;
use std::collections::btree_map::Iter;

/// A finite map of rows, from a directory and a name, and a finite map of records, from a directory. Each call that
/// writes changes its key alone.
#[derive(Drop)]
pub struct Table {
    alloc: Global,
    rows: NumberMap<NameMap<Row>>,
    pub(crate) recs: NumberMap<DirRec>,
}

impl Table {
    /// No rows and no records.
    pub fn new(alloc: Global) -> Table
        ensures rows { (contents_of result).rows ≡ map.empty }
        ensures recs { (contents_of result).recs ≡ map.empty }
    {
        Table {
            alloc,
            rows: NumberMap::new(alloc),
            recs: NumberMap::new(alloc),
        }
    }

    /// The row at a name of the directory. None comes exactly where there is none.
    #[tactic(auto, using(crate::proofs::Flattened::flattening))]
    pub fn row(&self, dir: DirId, name: &Name) -> Option<&Row>
        ensures { option_copied result ≡ map.get (contents_of self.now).rows (row_key dir name.now) }
    {
        match self.rows.get(dir.0) {
            Some(names) => names.get(name),
            None => None,
        }
    }

    /// The nodes of the directory, by rising name. The Err is want of memory, and comes only where it has rows.
    pub fn rows_of(&self, dir: DirId) -> Result<RowList, NoMemory>
        ensures rows { IfOk result (λ list. list ≡ map.entries (names_of (contents_of self.now) dir.0)) }
        ensures sure { map.entries (names_of (contents_of self.now) dir.0) ≡ [] → IsOk result }
    {
        match self.rows.get(dir.0) {
            Some(names) => listed(self.alloc, names),
            None => Ok(RowList::new(self.alloc)),
        }
    }

    /// Whether the directory has rows.
    pub fn has_rows(&self, dir: DirId) -> bool
        ensures { result ≡ has_rows (contents_of self.now) dir }
    {
        match self.rows.get(dir.0) {
            Some(names) => names.len() != 0,
            None => false,
        }
    }

    /// Sets the row at a name of the directory, and answers what stood there. The Err is want of memory for a new row:
    /// the table is as before.
    #[tactic(auto, using(crate::proofs::Flattened::flattening))]
    pub fn set_row(
        &mut self,
        dir: DirId,
        name: Name,
        node: Node,
        at: Stamp,
    ) -> Result<Option<Row>, NoMemory>
        ensures ok { OnOk result (contents_of self.new ≡ set_row (contents_of self.old) dir name node at) }
        ensures before { IfOk result (λ before. before ≡ map.get (contents_of self.old).rows (row_key dir name)) }
        ensures err { OnErr result (self.new ≡ self.old) }
        ensures there { IsSome (map.get (contents_of self.old).rows (row_key dir name)) → IsOk result }
    {
        let row = Row { node, stamp: at };
        let Ok(before) = self.rows.set_name(self.alloc, dir.0, name, row) else {
            return Err(NoMemory);
        };
        Ok(before)
    }

    /// Takes the row at a name of the directory out, and answers what stood there. None comes exactly where there was
    /// none.
    pub fn cut_row(&mut self, dir: DirId, name: &Name) -> Option<Row>
        ensures contents { contents_of self.new ≡ cut_row (contents_of self.old) dir name.now }
        ensures before { result ≡ map.get (contents_of self.old).rows (row_key dir name.now) }
    {
        self.rows.cut_name(dir.0, name)
    }

    /// The record of the directory. None comes exactly where there is none.
    pub fn rec(&self, dir: DirId) -> Option<&DirRec>
        ensures { option_copied result ≡ map.get (contents_of self.now).recs dir.0 }
    {
        self.recs.get(dir.0)
    }

    /// Sets the record of the directory, and answers what stood there. The Err is want of memory for a new record: the
    /// table is as before.
    pub fn set_rec(&mut self, dir: DirId, rec: DirRec) -> Result<Option<DirRec>, NoMemory>
        ensures ok { OnOk result (contents_of self.new ≡ set_rec (contents_of self.old) dir rec) }
        ensures before { IfOk result (λ before. before ≡ map.get (contents_of self.old).recs dir.0) }
        ensures err { OnErr result (self.new ≡ self.old) }
        ensures there { IsSome (map.get (contents_of self.old).recs dir.0) → IsOk result }
    {
        match self.recs.set(dir.0, rec) {
            Ok(before) => Ok(before),
            Err(_) => Err(NoMemory),
        }
    }

    /// Takes the record of the directory out, and answers what stood there. None comes exactly where there was none.
    pub fn cut_rec(&mut self, dir: DirId) -> Option<DirRec>
        ensures contents { contents_of self.new ≡ cut_rec (contents_of self.old) dir }
        ensures before { result ≡ map.get (contents_of self.old).recs dir.0 }
    {
        self.recs.cut(dir.0)
    }

    /// The first row above the name of the directory, or the first of all: by rising directories, and in each by rising
    /// names. None comes exactly where there is none.
    pub fn next_row(&self, after: Option<(DirId, &Name)>) -> Option<(DirId, &Name, &Row)>
        ensures { option_map (λ entry. (row_key entry.0 entry.1.now, entry.2.now)) result ≡ first_of (entries_after (slice_cmp nat_cmp) (option_map (λ place. row_key place.0 place.1.now) after.entry) (map.entries (contents_of self.now).rows)) }
    {
        next_in(&self.rows, after)
    }

    /// The records, by rising directories.
    pub fn recs(&self) -> Iter<'_, u64, DirRec>
        ensures rest { result ≡ map.entries (contents_of self.now).recs }
        ensures runs { ShowsInOrder (deref_pair {K = ℕ} {X = DirRec}) }
        ensures fits { map.len (contents_of self.now).recs < 2 ^ 63 }
    {
        self.recs.iter()
    }

    /// The first record above `after`, or the first of all. None comes exactly where there is none.
    pub fn next_rec(&self, after: Option<DirId>) -> Option<(DirId, &DirRec)>
        ensures { option_map (λ entry. (entry.0.0, entry.1.now)) result ≡ first_of (entries_after nat_cmp (option_map (λ (dir : DirId). dir.0) after) (map.entries (contents_of self.now).recs)) }
    {
        match self.recs.next(after.map(|dir| dir.0)) {
            Some((dir, rec)) => Some((DirId(dir), rec)),
            None => None,
        }
    }

    /// Whether some row names the file.
    pub fn names_file(&self, file: FileId) -> bool
        ensures { result ≡ list_any (λ e. names_file file.0 e.1.node) (map.entries (contents_of self.now).rows) }
    {
        any_names(&self.rows, Node::File(file))
    }

    /// Whether some row names the directory.
    pub fn names_dir(&self, dir: DirId) -> bool
        ensures { result ≡ list_any (λ e. names_dir dir.0 e.1.node) (map.entries (contents_of self.now).rows) }
    {
        any_names(&self.rows, Node::Dir(dir))
    }

    /// Whether a row of the directory, locked or not, names the node.
    pub fn names_node(&self, dir: DirId, node: Node) -> bool
        ensures { result ≡ list_any (λ e. lies_in dir.0 e.0 && is_node node e.1.node) (map.entries (contents_of self.now).rows) }
    {
        match self.rows.get(dir.0) {
            Some(names) => directory_names(names, node),
            None => false,
        }
    }

    /// Adds the nodes that the rows name to a set. The Err is want of memory.
    pub fn add_named(&self, nodes: &mut NodeSet) -> Result<(), NoMemory>
        ensures { OnOk result ((x : _) → has_node nodes.new x ≡ (has_node nodes.old x || list_any (λ e. is_node x e.1.node) (map.entries (contents_of self.now).rows))) }
    {
        add_all(nodes, &self.rows)?;
        Ok(())
    }
}
