//! A directory of the namespace.
ghost use Rattle.std.specs.Prelude.{◌≡◌, ℕ, List, [], OnOk, OnErr, IfOk, IsOk, IsSome, IsTrue, ◌↔◌, ◌^◌, ◌<◌};
ghost use Rattle.std.specs.Option.{option_copied, option_map};
ghost use Rattle.std.specs.Map.Iter.{ShowsInOrder, deref_pair};
ghost use Rattle.std.specs.FinMap as map;
ghost use Rattle.std.specs.List.{list_any};
ghost use Rattle.std.specs.Ordering.{nat_cmp};
ghost use Rattle.std.specs.Cmp.Lexicographic.{slice_cmp};
ghost use Rattle.next_ids.specs.declared.ids.Node.{Node};
ghost use Rattle.next_ids.specs.Namespace.{children_of, links_of, is_full, is_node};
ghost use Rattle.next_ids.specs.Times.{later};
ghost use Rattle.next_maps.specs.Walks.{entries_after, first_of};

use crate::rows::{dirs_in, list_of, names_it, names_of};
use crate::same::same_names;
use next_ids::{LINK_MAX, Name, NoMemory, Node, RowList, Ts, later};
use next_maps::NameMap;
use std::alloc::Global;
use std::collections::btree_map::Iter;
use std::marker::Model;

/// The nodes of a directory by their names, and its time.
#[derive(Drop)]
pub struct Directory {
    names: NameMap<Node>,
    time: Ts,
}

impl Model for Directory {
    ghost use Rattle.next_ids.specs.Namespace.{Directory};
    ghost use Rattle.next_tree.specs.Codes.{directory_code};

    ghost Value = { Directory };

    ghost coded = { directory_code };

    ghost view = { λ directory. record { names = directory.names; time = directory.time } };
}

impl Directory {
    /// A directory with no names.
    pub fn new(alloc: Global, time: Ts) -> Directory
        ensures { result ≡ record { names = map.empty; time = time } }
    {
        Directory {
            names: NameMap::new(alloc),
            time,
        }
    }

    /// A directory of these rows. Of two rows with one name the first counts. The Err is want of memory.
    pub fn of_rows(alloc: Global, time: Ts, rows: &RowList) -> Result<Directory, NoMemory>
        ensures { IfOk result (λ directory. directory ≡ record { names = map.from_entries rows.now; time = time }) }
    {
        Ok(Directory {
            names: names_of(alloc, rows.as_slice())?,
            time,
        })
    }

    /// The time.
    pub fn time(&self) -> Ts
        ensures { result ≡ self.now.time }
    {
        self.time
    }

    /// The node of the name. None comes exactly where the name isn't there.
    pub fn get(&self, name: &Name) -> Option<Node>
        ensures { result ≡ map.get self.now.names name.now }
    {
        match self.names.get(name) {
            Some(node) => Some(*node),
            None => None,
        }
    }

    /// How many names there are.
    pub fn children(&self) -> u64
        ensures { result ≡ children_of self.now }
    {
        self.names.len() as u64
    }

    /// 2, and one more for each directory that a name is of (POSIX.1-2017, stat, st_nlink).
    pub fn links(&self) -> u64
        ensures { result ≡ links_of self.now }
    {
        2 + dirs_in(&self.names)
    }

    /// Whether the directory has as many links as one may have (POSIX.1-2017, mkdir and rename, EMLINK).
    pub fn is_full(&self) -> bool
        ensures { result ≡ is_full self.now }
    {
        self.links() >= LINK_MAX
    }

    /// Whether a name is this node's.
    pub fn names_it(&self, node: Node) -> bool
        ensures { result ≡ list_any (λ row. is_node node row.1) (map.entries self.now.names) }
    {
        names_it(&self.names, node)
    }

    /// The rows, by rising names. The Err is want of memory, and comes only where there are some.
    pub fn rows(&self, alloc: Global) -> Result<RowList, NoMemory>
        ensures rows { IfOk result (λ rows. rows ≡ map.entries self.now.names) }
        ensures sure { map.entries self.now.names ≡ [] → IsOk result }
    {
        list_of(alloc, &self.names)
    }

    /// The first row whose name is above `after`, or the first of all. None comes exactly where there is none.
    pub fn next(&self, after: Option<&Name>) -> Option<(&Name, Node)>
        ensures { option_map (λ row. (row.0.now, row.1)) result ≡ first_of (entries_after (slice_cmp nat_cmp) (option_copied after.entry) (map.entries self.now.names)) }
    {
        match self.names.next(after) {
            Some((name, node)) => Some((name, *node)),
            None => None,
        }
    }

    /// The rows, by rising names.
    pub fn iter(&self) -> Iter<'_, Name, Node>
        ensures rest { result ≡ map.entries self.now.names }
        ensures runs { ShowsInOrder (deref_pair {K = List ℕ} {X = Node}) }
        ensures fits { map.len self.now.names < 2 ^ 63 }
    {
        self.names.iter()
    }

    /// Whether the other directory is the same.
    pub fn same(&self, other: &Directory) -> bool
        ensures { IsTrue result ↔ (self.now ≡ other.now) }
    {
        self.time == other.time && same_names(&self.names, &other.names)
    }

    /// Sets the time.
    pub(crate) fn set_time(&mut self, time: Ts)
        ensures { self.new ≡ record { names = self.old.names; time = time } }
    {
        self.time = time;
    }

    /// Sets the node of the name. The Err is want of memory for a new name, and then nothing changed.
    pub(crate) fn set(&mut self, name: Name, node: Node) -> Result<(), NoMemory>
        ensures ok { OnOk result (self.new ≡ record { names = map.insert self.old.names name node; time = self.old.time }) }
        ensures err { OnErr result (self.new ≡ self.old) }
        ensures there { IsSome (map.get self.old.names name) → IsOk result }
    {
        match self.names.set(name, node) {
            Ok(_) => Ok(()),
            Err(_) => Err(NoMemory),
        }
    }

    /// Sets the node of the name, and makes the time no earlier than this. The Err is want of memory, and then nothing changed.
    pub(crate) fn put(&mut self, name: Name, node: Node, time: Ts) -> Result<(), NoMemory>
        ensures ok { OnOk result (self.new ≡ record { names = map.insert self.old.names name node; time = later self.old.time time }) }
        ensures err { OnErr result (self.new ≡ self.old) }
    {
        self.set(name, node)?;
        self.time = later(self.time, time);
        Ok(())
    }

    /// Takes the name out, and makes the time no earlier than this.
    pub(crate) fn cut(&mut self, name: &Name, time: Ts)
        ensures { self.new ≡ record { names = map.remove self.old.names name.now; time = later self.old.time time } }
    {
        let _ = self.names.cut(name);
        self.time = later(self.time, time);
    }
}
