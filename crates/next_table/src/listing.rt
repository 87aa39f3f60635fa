//! What the rows of a directory tell.
ghost use Rattle.std.specs.Prelude.{◌≡◌, ◌||◌, OnOk, [], IfOk, IsOk, map as list_map};
ghost use Rattle.std.specs.List.{list_any};
ghost use Rattle.std.specs.FinMap as map;
ghost use Rattle.next_ids.specs.Namespace.{is_node};
ghost use Rattle.next_maps.specs.NodeSets.{has_node};

use next_ids::{NoMemory, Node, RowList};
use next_maps::{NameMap, NodeSet, NumberMap};
use next_steps::Row;
use std::alloc::Global;

/// The nodes of a directory, by rising name. The Err is want of memory, and comes only where there are some.
pub fn listed(alloc: Global, names: &NameMap<Row>) -> Result<RowList, NoMemory>
    ensures rows { IfOk result (λ list. list ≡ list_map (λ e. (e.0, e.1.node)) (map.entries names.now)) }
    ensures sure { map.entries names.now ≡ [] → IsOk result }
{
    let mut list = RowList::new(alloc);
    for (name, row) in names.iter() {
        let name = name.copy()?;
        if list.push((name, row.node)).is_err() {
            return Err(NoMemory);
        }
    }
    Ok(list)
}

// Whether the row names the node.
fn is_of(row: &Row, node: Node) -> bool
    ensures { result ≡ is_node node row.now.node }
{
    match (node, row.node) {
        (Node::File(file), Node::File(named)) => named.0 == file.0,
        (Node::Dir(dir), Node::Dir(named)) => named.0 == dir.0,
        _ => false,
    }
}

/// Whether a row of the directory names the node.
pub fn directory_names(names: &NameMap<Row>, node: Node) -> bool
    ensures { result ≡ list_any (λ e. is_node node e.1.node) (map.entries names.now) }
{
    for (_, row) in names.iter() {
        if is_of(row, node) {
            return true;
        }
    }
    false
}

/// Whether a row of some directory names the node.
pub fn any_names(rows: &NumberMap<NameMap<Row>>, node: Node) -> bool
    ensures { result ≡ list_any (λ d. list_any (λ e. is_node node e.1.node) (map.entries d.1)) (map.entries rows.now) }
{
    for (_, names) in rows.iter() {
        if directory_names(names, node) {
            return true;
        }
    }
    false
}

// Adds the nodes that the directory names.
fn add_names(nodes: &mut NodeSet, names: &NameMap<Row>) -> Result<(), NoMemory>
    ensures { OnOk result ((x : _) → has_node nodes.new x ≡ (has_node nodes.old x || list_any (λ e. is_node x e.1.node) (map.entries names.now))) }
{
    for (_, row) in names.iter() {
        nodes.add(row.node)?;
    }
    Ok(())
}

/// Adds the nodes that the rows of all directories name.
pub fn add_all(nodes: &mut NodeSet, rows: &NumberMap<NameMap<Row>>) -> Result<(), NoMemory>
    ensures { OnOk result ((x : _) → has_node nodes.new x ≡ (has_node nodes.old x || list_any (λ d. list_any (λ e. is_node x e.1.node) (map.entries d.1)) (map.entries rows.now))) }
{
    for (_, names) in rows.iter() {
        add_names(nodes, names)?;
    }
    Ok(())
}
