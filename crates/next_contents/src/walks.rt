//! Walks through what a shard holds, and which nodes its rows name.
ghost use Rattle.std.specs.Prelude.{◌≡◌, ◌||◌, ◌&&◌, ℕ, OnOk, ◌^◌, ◌<◌};
ghost use Rattle.std.specs.Option.{option_copied, option_map};
ghost use Rattle.std.specs.Ordering.{nat_cmp};
ghost use Rattle.std.specs.Cmp.Lexicographic.{slice_cmp};
ghost use Rattle.std.specs.FinMap as map;
ghost use Rattle.std.specs.Map.Iter.{ShowsInOrder, deref_pair};
ghost use Rattle.std.specs.List.{list_any};
ghost use Rattle.next_ids.specs.declared.ids.DirId.{DirId};
ghost use Rattle.next_ids.specs.Maps.{row_key, lies_in};
ghost use Rattle.next_ids.specs.Namespace.{is_node, names_file, names_dir};
ghost use Rattle.next_steps.specs.declared.contents.DirRec.{DirRec};
ghost use Rattle.next_maps.specs.NodeSets.{has_node};
ghost use Rattle.next_maps.specs.Walks.{entries_after, first_of};
ghost use Rattle.next_rules.specs.Contents.{debt_key};
ghost use Rattle.next_contents.specs.Shown.{contents_of, place_of};

use crate::contents::Contents;
use next_ids::{DirId, FileId, Name, NoMemory, Node};
use next_maps::NodeSet;
use next_steps::{Debt, DirRec, Row, RowLock};
use next_table::next_in;
use std::collections::btree_map::Iter;

impl Contents {
    /// The first row above the name of the directory, or the first of all: by rising directories, and in each by rising
    /// names. None comes exactly where there is none.
    pub fn next_row(&self, after: Option<(DirId, &Name)>) -> Option<(DirId, &Name, &Row)>
        ensures { option_map (λ entry. (row_key entry.0 entry.1.now, entry.2.now)) result ≡ first_of (entries_after (slice_cmp nat_cmp) (option_map (λ place. row_key place.0 place.1.now) after.entry) (map.entries (contents_of self.now).rows)) }
    {
        self.table.next_row(after)
    }

    /// The first lock above the name of the directory, or the first of all: by rising directories, and in each by rising
    /// names. None comes exactly where there is none.
    pub fn next_lock(&self, after: Option<(DirId, &Name)>) -> Option<(DirId, &Name, &RowLock)>
        ensures { option_map (λ entry. (row_key entry.0 entry.1.now, entry.2.now)) result ≡ first_of (entries_after (slice_cmp nat_cmp) (option_map (λ place. row_key place.0 place.1.now) after.entry) (map.entries (contents_of self.now).locks)) }
    {
        next_in(&self.locks, after)
    }

    /// The first record above `after`, or the first of all. None comes exactly where there is none.
    pub fn next_rec(&self, after: Option<DirId>) -> Option<(DirId, &DirRec)>
        ensures { option_map (λ entry. (entry.0.0, entry.1.now)) result ≡ first_of (entries_after nat_cmp (option_map (λ (dir : DirId). dir.0) after) (map.entries (contents_of self.now).recs)) }
    {
        self.table.next_rec(after)
    }

    /// The first debt above that of the node, or the first of all: files before directories, and each by rising numbers.
    /// None comes exactly where there is none.
    pub fn next_debt(&self, after: Option<Node>) -> Option<(Node, Debt)>
        ensures { option_map (λ e. (debt_key (place_of self.now) e.0, e.1)) result ≡ first_of (entries_after (slice_cmp nat_cmp) (option_map (debt_key (place_of self.now)) after) (map.entries (contents_of self.now).debts)) }
    {
        self.debts.next(after)
    }

    /// The records, by rising directories.
    pub fn recs(&self) -> Iter<'_, u64, DirRec>
        ensures rest { result ≡ map.entries (contents_of self.now).recs }
        ensures runs { ShowsInOrder (deref_pair {K = ℕ} {X = DirRec}) }
        ensures fits { map.len (contents_of self.now).recs < 2 ^ 63 }
    {
        self.table.recs()
    }

    /// Whether some row, locked or not, names the file.
    pub fn names_file(&self, file: FileId) -> bool
        ensures { result ≡ list_any (λ e. names_file file.0 e.1.node) (map.entries (contents_of self.now).rows) }
    {
        self.table.names_file(file)
    }

    /// Whether some row, locked or not, names the directory.
    pub fn names_dir(&self, dir: DirId) -> bool
        ensures { result ≡ list_any (λ e. names_dir dir.0 e.1.node) (map.entries (contents_of self.now).rows) }
    {
        self.table.names_dir(dir)
    }

    /// Whether a row of the directory, locked or not, names the node.
    pub fn names_node(&self, dir: DirId, node: Node) -> bool
        ensures { result ≡ list_any (λ e. lies_in dir.0 e.0 && is_node node e.1.node) (map.entries (contents_of self.now).rows) }
    {
        self.table.names_node(dir, node)
    }

    /// Adds the nodes that the rows name to a set. The Err is want of memory.
    pub fn add_named(&self, nodes: &mut NodeSet) -> Result<(), NoMemory>
        ensures { OnOk result ((x : _) → has_node nodes.new x ≡ (has_node nodes.old x || list_any (λ e. is_node x e.1.node) (map.entries (contents_of self.now).rows))) }
    {
        self.table.add_named(nodes)
    }
}
