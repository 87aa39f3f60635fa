//! A set of nodes.
ghost use Rattle.std.specs.Prelude.{◌≡◌, ◌==◌, OnOk, OnErr, IsOk, ◌||◌, true, false, is_some};
ghost use Rattle.std.specs.FinMap as map;
ghost use Rattle.next_ids.specs.Namespace.{is_node};

use crate::numbers::NumberMap;
use next_ids::{NoMemory, Node};
use std::alloc::Global;

/// Files and directories by their numbers.
#[derive(Drop)]
pub struct NodeSet {
    files: NumberMap<()>,
    dirs: NumberMap<()>,
}

// Sets the number in the map.
fn enter(numbers: &mut NumberMap<()>, number: u64) -> Result<(), NoMemory>
    ensures ok { OnOk result ((k : _) → is_some (map.get numbers.new k) ≡ (is_some (map.get numbers.old k) || number == k)) }
    ensures err { OnErr result (numbers.new ≡ numbers.old) }
    ensures there { is_some (map.get numbers.old number) ≡ true → IsOk result }
{
    match numbers.set(number, ()) {
        Ok(_) => Ok(()),
        Err(_) => Err(NoMemory),
    }
}

impl NodeSet {
    ghost use Rattle.next_maps.specs.NodeSets.{has_node};

    /// No nodes.
    pub fn new(alloc: Global) -> NodeSet
        ensures { (x : _) → has_node result x ≡ false }
    {
        NodeSet {
            files: NumberMap::new(alloc),
            dirs: NumberMap::new(alloc),
        }
    }

    /// Adds the node. The Err is want of memory, and doesn't come where the node is there.
    pub fn add(&mut self, node: Node) -> Result<(), NoMemory>
        ensures ok { OnOk result ((x : _) → has_node self.new x ≡ (has_node self.old x || is_node x node)) }
        ensures err { OnErr result (self.new ≡ self.old) }
        ensures there { has_node self.old node ≡ true → IsOk result }
    {
        match node {
            Node::File(file) => enter(&mut self.files, file.0),
            Node::Dir(dir) => enter(&mut self.dirs, dir.0),
        }
    }

    /// Whether the node is in the set.
    pub fn has(&self, node: Node) -> bool
        ensures { result ≡ has_node self.now node }
    {
        match node {
            Node::File(file) => self.files.get(file.0).is_some(),
            Node::Dir(dir) => self.dirs.get(dir.0).is_some(),
        }
    }
}
