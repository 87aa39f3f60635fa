//! What is left to do at the places.
ghost use Rattle.std.specs.Prelude.{◌≡◌, ◌+◌, ◌≤◌, ◌∷◌, [], is_some, length, map};
ghost use Rattle.std.specs.FinMap as finmap;
ghost use Rattle.cfs_ids.specs.Maps.{how_many};
ghost use Rattle.cfs_rules.specs.Trees.{has_ended, is_left};
ghost use Rattle.cfs_ids.specs.declared.ids.Node.{Node};
ghost use Rattle.cfs_ids.specs.declared.ids.Node.TheVariants as nodes;
ghost use Rattle.cfs_shard.specs.Shards as shards;
ghost use Rattle.cfs_store.specs.Stores as stores;
ghost use Rattle.cfs_rules.specs.Several.{contents_in};
ghost use Rattle.cfs_view.specs.PlaceViews.{shard_view, store_view};
ghost use Rattle.cfs_view.specs.Shown.{names_in};
ghost use Rattle.cfs_view.specs.PlaceLists.{shard_items, store_items, roster_in};
ghost use Rattle.cfs_view.specs.Views.{held, IsService};
ghost use Rattle.cfs_view.specs.Tallies.{tallied, owed_dirs, owed_files, stray_dirs, stray_files};

use crate::place::Place;
use crate::places::Places;
use cfs_ids::{Client, DirId, FileId};
use cfs_shard::Shard;
use cfs_store::Store;

/// How much is left to do: nodes whose owner hasn't settled them, debts, marks, and nodes that an ended client owns
/// and no row names.
#[derive(Clone, Copy, Debug, PartialEq, Eq)]
pub struct Tallied {
    pub owed: u64,
    pub debts: u64,
    pub marks: u64,
    pub strays: u64,
}

// How many directories of the shard have an owner.
fn owed_in_shard(shard: &Shard) -> u64
    ensures count { result ≡ how_many (λ e. is_some e.1.owner) (finmap.entries (shards.contents_of shard.now).recs) }
    ensures few { result ≤ 1048577 }
{
    let mut count: u64 = 0;
    for (_, rec) in shard.recs() {
        if rec.owner.is_some() {
            count += 1;
        }
    }
    count
}

// How many files of the store have an owner.
fn owed_in_store(store: &Store) -> u64
    ensures count { result ≡ how_many (λ e. is_some e.1.owner) (finmap.entries (stores.contents_of store.now)) }
    ensures few { result ≤ 1048576 }
{
    let mut count: u64 = 0;
    for (_, rec) in store.files() {
        if rec.owner.is_some() {
            count += 1;
        }
    }
    count
}

// How many nodes of all places have an owner.
fn count_owed(places: &[Place]) -> u64
    requires { length places.now ≤ 130 }
    ensures { result ≡ owed_dirs (contents_in (map shard_view (shard_items places.now))) + owed_files (contents_in (map store_view (store_items places.now))) }
{
    let mut count: u64 = 0;
    for place in places {
        match place {
            Place::Shard(shard) => count += owed_in_shard(shard),
            Place::Store(store) => count += owed_in_store(store),
            _ => {}
        }
    }
    count
}

// Whether the roster has the client as ended.
fn has_ended(places: &[Place], client: Client) -> bool
    ensures { result ≡ has_ended (roster_in places.now) client }
{
    for place in places {
        if let Place::Roster(roster) = place {
            return roster.has_ended(client);
        }
    }
    false
}

// Whether the place is a shard, and one of its rows names the directory.
fn shard_names_dir(place: &Place, dir: DirId) -> bool
    ensures { result ≡ names_in (contents_in (map shard_view (shard_items (place.now ∷ [])))) (nodes.Dir dir) }
{
    match place {
        Place::Shard(shard) => shard.names_dir(dir),
        _ => false,
    }
}

// Whether the place is a shard, and one of its rows names the file.
fn shard_names_file(place: &Place, file: FileId) -> bool
    ensures { result ≡ names_in (contents_in (map shard_view (shard_items (place.now ∷ [])))) (nodes.File file) }
{
    match place {
        Place::Shard(shard) => shard.names_file(file),
        _ => false,
    }
}

// Whether a row of some shard names the directory.
fn names_dir(places: &[Place], dir: DirId) -> bool
    ensures { result ≡ names_in (contents_in (map shard_view (shard_items places.now))) (nodes.Dir dir) }
{
    for place in places {
        if shard_names_dir(place, dir) {
            return true;
        }
    }
    false
}

// Whether a row of some shard names the file.
fn names_file(places: &[Place], file: FileId) -> bool
    ensures { result ≡ names_in (contents_in (map shard_view (shard_items places.now))) (nodes.File file) }
{
    for place in places {
        if shard_names_file(place, file) {
            return true;
        }
    }
    false
}

// Whether the owner of a directory ended and no row names it. The rows are asked last.
fn is_stray_dir(places: &[Place], dir: DirId, owner: Option<Client>) -> bool
    ensures { result ≡ is_left (roster_in places.now) (names_in (contents_in (map shard_view (shard_items places.now))) (nodes.Dir dir)) owner }
{
    match owner {
        Some(client) => has_ended(places, client) && !names_dir(places, dir),
        None => false,
    }
}

// Whether the owner of a file ended and no row names it. The rows are asked last.
fn is_stray_file(places: &[Place], file: FileId, owner: Option<Client>) -> bool
    ensures { result ≡ is_left (roster_in places.now) (names_in (contents_in (map shard_view (shard_items places.now))) (nodes.File file)) owner }
{
    match owner {
        Some(client) => has_ended(places, client) && !names_file(places, file),
        None => false,
    }
}

// How many directories of the shard an ended client owns and no row names.
fn strays_in_shard(places: &[Place], shard: &Shard) -> u64
    ensures count { result ≡ how_many (λ e. is_left (roster_in places.now) (names_in (contents_in (map shard_view (shard_items places.now))) (nodes.Dir (record { 0 = e.0 }))) e.1.owner) (finmap.entries (shards.contents_of shard.now).recs) }
    ensures few { result ≤ 1048577 }
{
    let mut count: u64 = 0;
    for (dir, rec) in shard.recs() {
        if is_stray_dir(places, DirId(*dir), rec.owner) {
            count += 1;
        }
    }
    count
}

// How many files of the store an ended client owns and no row names.
fn strays_in_store(places: &[Place], store: &Store) -> u64
    ensures count { result ≡ how_many (λ e. is_left (roster_in places.now) (names_in (contents_in (map shard_view (shard_items places.now))) (nodes.File (record { 0 = e.0 }))) e.1.owner) (finmap.entries (stores.contents_of store.now)) }
    ensures few { result ≤ 1048576 }
{
    let mut count: u64 = 0;
    for (file, rec) in store.files() {
        if is_stray_file(places, FileId(*file), rec.owner) {
            count += 1;
        }
    }
    count
}

// How many nodes an ended client owns and no row names.
fn count_strays(places: &[Place]) -> u64
    requires { length places.now ≤ 130 }
    ensures { result ≡ stray_dirs (roster_in places.now) (names_in (contents_in (map shard_view (shard_items places.now)))) (contents_in (map shard_view (shard_items places.now))) + stray_files (roster_in places.now) (names_in (contents_in (map shard_view (shard_items places.now)))) (contents_in (map store_view (store_items places.now))) }
{
    let mut count: u64 = 0;
    for place in places {
        match place {
            Place::Shard(shard) => count += strays_in_shard(places, shard),
            Place::Store(store) => count += strays_in_store(places, store),
            _ => {}
        }
    }
    count
}

/// How much is left to do at the places. Nothing leaves a debt or a mark. It takes no memory.
pub fn tally(places: &Places) -> Tallied
    requires { IsService places.now }
    ensures { result ≡ tallied (held places.now) }
{
    let places = places.as_slice();
    Tallied {
        owed: count_owed(places),
        debts: 0,
        marks: 0,
        strays: count_strays(places),
    }
}
