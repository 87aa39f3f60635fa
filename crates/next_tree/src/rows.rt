//! What the names of a directory say.
ghost use Rattle.std.specs.Prelude.{◌≡◌, IfOk, IsOk, [], ◌^◌, ◌<◌};
ghost use Rattle.std.specs.List.{list_any};
ghost use Rattle.std.specs.FinMap as map;
ghost use Rattle.next_ids.specs.Maps.{how_many};
ghost use Rattle.next_ids.specs.Namespace.{is_dir, is_node, names_file, names_dir};
ghost use Rattle.next_tree.specs.Upward.{parent_among};

use crate::directory::Directory;
use next_ids::{DirId, FileId, Name, NoMemory, Node, RowList};
use next_maps::{NameMap, NumberMap};
use std::alloc::Global;

// The rows, by rising names.
pub(crate) fn list_of(alloc: Global, names: &NameMap<Node>) -> Result<RowList, NoMemory>
    ensures rows { IfOk result (λ rows. rows ≡ map.entries names.now) }
    ensures sure { map.entries names.now ≡ [] → IsOk result }
{
    let mut rows = RowList::new(alloc);
    for (name, node) in names.iter() {
        let row = (name.copy()?, *node);
        if rows.push(row).is_err() {
            return Err(NoMemory);
        }
    }
    Ok(rows)
}

// The names of the rows and their nodes. Of two rows with one name the first counts, so the last is set first.
pub(crate) fn names_of(alloc: Global, rows: &[(Name, Node)]) -> Result<NameMap<Node>, NoMemory>
    ensures { IfOk result (λ names. names ≡ map.from_entries rows.now) }
{
    let mut names = NameMap::new(alloc);
    let mut left = rows.len();
    while left > 0 {
        left -= 1;
        let name = rows[left].0.copy()?;
        if names.set(name, rows[left].1).is_err() {
            return Err(NoMemory);
        }
    }
    Ok(names)
}

// Whether the node is a directory.
fn is_dir(node: Node) -> bool
    ensures { result ≡ is_dir node }
{
    match node {
        Node::Dir(_) => true,
        Node::File(_) => false,
    }
}

// How many of the nodes are directories.
pub(crate) fn dirs_in(names: &NameMap<Node>) -> u64
    ensures count { result ≡ how_many (λ row. is_dir row.1) (map.entries names.now) }
    ensures small { result < 2 ^ 63 }
{
    let mut count: u64 = 0;
    for (_, node) in names.iter() {
        if is_dir(*node) {
            count += 1;
        }
    }
    count
}

// Whether a name is this node's.
pub(crate) fn names_it(names: &NameMap<Node>, node: Node) -> bool
    ensures { result ≡ list_any (λ row. is_node node row.1) (map.entries names.now) }
{
    for (_, other) in names.iter() {
        if node == *other {
            return true;
        }
    }
    false
}

// Whether a directory has a name of this file.
pub(crate) fn any_names_it(dirs: &NumberMap<Directory>, file: FileId) -> bool
    ensures { result ≡ list_any (λ dir. list_any (λ row. names_file file.0 row.1) (map.entries dir.1.names)) (map.entries dirs.now) }
{
    for (_, directory) in dirs.iter() {
        if directory.names_it(Node::File(file)) {
            return true;
        }
    }
    false
}

// The first directory that has a name of this one. None comes exactly where none has.
pub(crate) fn parent_of(dirs: &NumberMap<Directory>, dir: DirId) -> Option<DirId>
    ensures { result ≡ parent_among dir (map.entries dirs.now) }
{
    for (parent, directory) in dirs.iter() {
        if directory.names_it(Node::Dir(dir)) {
            return Some(DirId(*parent));
        }
    }
    None
}
