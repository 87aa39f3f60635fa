//! The tree that the places hold.
ghost use Rattle.std.specs.Prelude.{◌≡◌, ◌==◌, ◌||◌, IfOk, OnOk, false, is_none, map};
ghost use Rattle.std.specs.List.{list_any};
ghost use Rattle.std.specs.FinMap as finmap;
ghost use Rattle.cfs_ids.specs.Namespace.{is_node};
ghost use Rattle.cfs_maps.specs.NodeSets.{has_node};
ghost use Rattle.cfs_rules.specs.Trees.{tree, directory_of};
ghost use Rattle.cfs_shard.specs.Shards as shards;
ghost use Rattle.cfs_store.specs.Stores as stores;
ghost use Rattle.cfs_view.specs.Collected.{with_each, with_value};
ghost use Rattle.cfs_rules.specs.Several.{contents_in};
ghost use Rattle.cfs_view.specs.PlaceViews.{shard_view, store_view};
ghost use Rattle.cfs_view.specs.PlaceLists.{shard_items, store_items};
ghost use Rattle.cfs_view.specs.Views.{held, IsService};
ghost use Rattle.cfs_view.specs.Shown.{names_in, shown_dir, shown_file, with_shards, with_stores};

use crate::place::Place;
use crate::places::Places;
use cfs_ids::{Client, DirId, FileId, NoMemory, Node};
use cfs_maps::NodeSet;
use cfs_shard::{DirRec, Shard};
use cfs_store::{FileRec, Store};
use cfs_tree::{Directory, Namespace};
use std::alloc::Global;

// The nodes that the rows of all shards name.
fn named_nodes(alloc: Global, places: &[Place]) -> Result<NodeSet, NoMemory>
    ensures { IfOk result (λ named. (x : _) → has_node named x ≡ names_in (contents_in (map shard_view (shard_items places.now))) x) }
{
    let mut named = NodeSet::new(alloc);
    for place in places {
        if let Place::Shard(shard) = place {
            shard.add_named(&mut named)?;
        }
    }
    Ok(named)
}

// The directory, with its rows and the time of its record.
fn directory_of(
    alloc: Global,
    shard: &Shard,
    dir: DirId,
    rec: &DirRec,
) -> Result<Directory, NoMemory>
    ensures { IfOk result (λ directory. directory ≡ directory_of (shards.contents_of shard.now) dir.0 rec.now) }
{
    let rows = shard.rows_of(dir)?;
    Directory::of_rows(alloc, rec.attr.time, &rows)
}

// Whether the directory is the root or among the named.
fn is_shown(named: &NodeSet, dir: DirId) -> bool
    ensures { result ≡ (dir.0 == 0 || has_node named.now (Node.Dir dir)) }
{
    dir.0 == 0 || named.has(Node::Dir(dir))
}

// Adds the directory if it counts.
fn add_dir(
    alloc: Global,
    namespace: &mut Namespace,
    named: &NodeSet,
    shard: &Shard,
    dir: DirId,
    rec: &DirRec,
) -> Result<(), NoMemory>
    ensures { OnOk result (namespace.new ≡ record { dirs = with_value namespace.old.dirs dir.0 (shown_dir (has_node named.now) (shards.contents_of shard.now) dir.0 rec.now); files = namespace.old.files }) }
{
    if is_shown(named, dir) {
        let directory = directory_of(alloc, shard, dir, rec)?;
        namespace.set_dir(dir, directory)?;
    }
    Ok(())
}

// Adds the directories of a shard that count.
fn add_dirs(
    alloc: Global,
    namespace: &mut Namespace,
    named: &NodeSet,
    shard: &Shard,
) -> Result<(), NoMemory>
    ensures { OnOk result (namespace.new ≡ record { dirs = with_each (shown_dir (has_node named.now) (shards.contents_of shard.now)) namespace.old.dirs (finmap.entries (shards.contents_of shard.now).recs); files = namespace.old.files }) }
{
    for (dir, rec) in shard.recs() {
        add_dir(alloc, namespace, named, shard, DirId(*dir), rec)?;
    }
    Ok(())
}

// Adds the directories of all shards that count.
fn add_all_dirs(
    alloc: Global,
    namespace: &mut Namespace,
    named: &NodeSet,
    places: &[Place],
) -> Result<(), NoMemory>
    ensures { OnOk result (namespace.new ≡ record { dirs = with_shards (has_node named.now) namespace.old.dirs (contents_in (map shard_view (shard_items places.now))); files = namespace.old.files }) }
{
    for place in places {
        if let Place::Shard(shard) = place {
            add_dirs(alloc, namespace, named, shard)?;
        }
    }
    Ok(())
}

// Whether the file has no owner or is among the named.
fn is_counted(named: &NodeSet, file: FileId, owner: Option<Client>) -> bool
    ensures { result ≡ (is_none owner || has_node named.now (Node.File file)) }
{
    owner.is_none() || named.has(Node::File(file))
}

// Adds the file if it counts.
fn add_file(
    namespace: &mut Namespace,
    named: &NodeSet,
    file: FileId,
    rec: &FileRec,
) -> Result<(), NoMemory>
    ensures { OnOk result (namespace.new ≡ record { dirs = namespace.old.dirs; files = with_value namespace.old.files file.0 (shown_file (has_node named.now) file.0 rec.now) }) }
{
    if is_counted(named, file, rec.owner) {
        namespace.add_file(file, rec.size, rec.time)
    } else {
        Ok(())
    }
}

// Adds the files of a store that count.
fn add_files(namespace: &mut Namespace, named: &NodeSet, store: &Store) -> Result<(), NoMemory>
    ensures { OnOk result (namespace.new ≡ record { dirs = namespace.old.dirs; files = with_each (shown_file (has_node named.now)) namespace.old.files (finmap.entries (stores.contents_of store.now)) }) }
{
    for (file, rec) in store.files() {
        add_file(namespace, named, FileId(*file), rec)?;
    }
    Ok(())
}

// Adds the files of all stores that count.
fn add_all_files(
    namespace: &mut Namespace,
    named: &NodeSet,
    places: &[Place],
) -> Result<(), NoMemory>
    ensures { OnOk result (namespace.new ≡ record { dirs = namespace.old.dirs; files = with_stores (has_node named.now) namespace.old.files (contents_in (map store_view (store_items places.now))) }) }
{
    for place in places {
        if let Place::Store(store) = place {
            add_files(namespace, named, store)?;
        }
    }
    Ok(())
}

/// The tree that the places hold: the root and the directories that a row names, and the files that have a record and
/// no owner, or that a row names. The Err is want of memory.
pub fn tree_of(alloc: Global, places: &Places) -> Result<Namespace, NoMemory>
    requires { IsService places.now }
    ensures { IfOk result (λ namespace. namespace ≡ tree (held places.now).shard (held places.now).store) }
{
    let places = places.as_slice();
    let named = named_nodes(alloc, places)?;
    let mut namespace = Namespace::new(alloc);
    add_all_dirs(alloc, &mut namespace, &named, places)?;
    add_all_files(&mut namespace, &named, places)?;
    Ok(namespace)
}
