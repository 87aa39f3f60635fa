//! Tests of what is promised of the places at every step.
ghost use Rattle.std.specs.Prelude.{◌≡◌, ◌↔◌, ◌<◌, ◌+◌, ◌==◌, ◌∷◌, [], true, not, if◌then◌else◌, IfSome, IfNone, map};
ghost use Rattle.std.specs.List.{list_any};
ghost use Rattle.std.specs.FinMap as finmap;
ghost use Rattle.next_ids.specs.Attributes.{CanFold};
ghost use Rattle.next_ids.specs.Maps.{how_many, row_key};
ghost use Rattle.next_shard.specs.Shards as shards;
ghost use Rattle.next_rules.specs.Facts.{AttributesHold, CountsHold};
ghost use Rattle.next_rules.specs.Several.{contents_in};
ghost use Rattle.next_view.specs.Checks.{any_has_dir, any_has_file, any_lacks, any_miscounts, counts_rows, has_record, is_row_of, rows_in};
ghost use Rattle.next_places.specs.PlaceLists.{shard_items, store_items};
ghost use Rattle.next_places.specs.PlaceViews.{shard_view, store_view};
ghost use Rattle.next_places.specs.Views.{held, IsService};

use next_ids::{DirId, FileId, Node, fold};
use next_places::{Place, Places};
use next_shard::{DirRec, Row, Shard};

// Whether a row of the directory `here` lies in `dir`, and names a directory where only such rows are meant.
fn is_row_of(here: DirId, row: &Row, dir: DirId, dirs_only: bool) -> bool
    ensures { (name : _) → result ≡ is_row_of dir.0 dirs_only (row_key here name, row.now) }
{
    here.0 == dir.0 && (!dirs_only || matches!(row.node, Node::Dir(_)))
}

// Takes a row from a count, if it is one that counts. None comes exactly where it is and none is left.
fn without_row(count: u64, counts: bool) -> Option<u64>
    ensures some { IfSome result (λ left. left + (if counts then 1 else 0) ≡ count) }
    ensures none { IfNone result ((counts ≡ true) × (count ≡ 0)) }
{
    if counts {
        count.checked_sub(1)
    } else {
        Some(count)
    }
}

// Takes the shard's rows of the directory from a count. None comes exactly where there are more.
fn without_rows(shard: &Shard, dir: DirId, dirs_only: bool, count: u64) -> Option<u64>
    ensures some { IfSome result (λ left. left + how_many (is_row_of dir.0 dirs_only) (finmap.entries (shards.contents_of shard.now).rows) ≡ count) }
    ensures none { IfNone result (count < how_many (is_row_of dir.0 dirs_only) (finmap.entries (shards.contents_of shard.now).rows)) }
{
    let mut left = count;
    let mut at = None;
    while let Some((here, name, row)) = shard.next_row(at) {
        left = without_row(left, is_row_of(here, row, dir, dirs_only))?;
        at = Some((here, name));
    }
    Some(left)
}

// Takes the place's rows of the directory from a count. None comes exactly where there are more.
fn without_rows_at(place: &Place, dir: DirId, dirs_only: bool, count: u64) -> Option<u64>
    ensures some { IfSome result (λ left. left + rows_in (is_row_of dir.0 dirs_only) (contents_in (map shard_view (shard_items (place.now ∷ [])))) ≡ count) }
    ensures none { IfNone result (count < rows_in (is_row_of dir.0 dirs_only) (contents_in (map shard_view (shard_items (place.now ∷ []))))) }
{
    match place {
        Place::Shard(shard) => without_rows(shard, dir, dirs_only, count),
        _ => Some(count),
    }
}

// Whether the shards have just so many rows of the directory.
fn has_rows(places: &[Place], dir: DirId, dirs_only: bool, count: u64) -> bool
    ensures { result ≡ (count == rows_in (is_row_of dir.0 dirs_only) (contents_in (map shard_view (shard_items places.now)))) }
{
    let mut left = count;
    for place in places {
        match without_rows_at(place, dir, dirs_only, left) {
            Some(rest) => left = rest,
            None => return false,
        }
    }
    left == 0
}

// Whether the record counts its rows, and those that name a directory.
fn counts_rows(places: &[Place], dir: DirId, rec: &DirRec) -> bool
    requires { CanFold rec.now.base rec.now.pending }
    ensures { result ≡ counts_rows (contents_in (map shard_view (shard_items places.now))) dir.0 rec.now }
{
    let attr = fold(rec.base, rec.pending.as_slice());
    has_rows(places, dir, false, attr.children) && has_rows(places, dir, true, attr.subdirs)
}

// Whether a record of the shard does not count its rows.
fn shard_miscounts(places: &[Place], shard: &Shard) -> bool
    ensures { result ≡ list_any (λ e. not (counts_rows (contents_in (map shard_view (shard_items places.now))) e.0 e.1)) (finmap.entries (shards.contents_of shard.now).recs) }
{
    for (dir, rec) in shard.contents().recs() {
        if !counts_rows(places, DirId(*dir), rec) {
            return true;
        }
    }
    false
}

// Whether the place is a shard, and a record of it does not count its rows.
fn place_miscounts(places: &[Place], place: &Place) -> bool
    ensures { result ≡ any_miscounts (contents_in (map shard_view (shard_items places.now))) (contents_in (map shard_view (shard_items (place.now ∷ [])))) }
{
    match place {
        Place::Shard(shard) => shard_miscounts(places, shard),
        _ => false,
    }
}

// Whether a record of some shard does not count its rows.
fn any_miscounts(places: &[Place]) -> bool
    ensures { result ≡ any_miscounts (contents_in (map shard_view (shard_items places.now))) (contents_in (map shard_view (shard_items places.now))) }
{
    for place in places {
        if place_miscounts(places, place) {
            return true;
        }
    }
    false
}

/// Whether the attributes of each directory, with the pending changes of its record, count the directory's rows, and
/// those of them that name a directory. It takes
/// no memory, and goes through all rows for each record.
pub fn counts_hold(places: &Places) -> bool
    requires { IsService places.now }
    ensures { (result ≡ true) ↔ CountsHold (held places.now).service.shard }
{
    !any_miscounts(places.as_slice())
}

// Whether the place is a shard with a record of the directory.
fn place_has_dir(place: &Place, dir: DirId) -> bool
    ensures { result ≡ any_has_dir (contents_in (map shard_view (shard_items (place.now ∷ [])))) dir.0 }
{
    match place {
        Place::Shard(shard) => shard.rec(dir).is_some(),
        _ => false,
    }
}

// Whether some shard has a record of the directory.
fn has_dir(places: &[Place], dir: DirId) -> bool
    ensures { result ≡ any_has_dir (contents_in (map shard_view (shard_items places.now))) dir.0 }
{
    for place in places {
        if place_has_dir(place, dir) {
            return true;
        }
    }
    false
}

// Whether the place is a store with a record of the file.
fn place_has_file(place: &Place, file: FileId) -> bool
    ensures { result ≡ any_has_file (contents_in (map store_view (store_items (place.now ∷ [])))) file.0 }
{
    match place {
        Place::Store(store) => store.file(file).is_some(),
        _ => false,
    }
}

// Whether some store has a record of the file.
fn has_file(places: &[Place], file: FileId) -> bool
    ensures { result ≡ any_has_file (contents_in (map store_view (store_items places.now))) file.0 }
{
    for place in places {
        if place_has_file(place, file) {
            return true;
        }
    }
    false
}

// Whether the node has a record.
fn has_record(places: &[Place], node: Node) -> bool
    ensures { result ≡ has_record (contents_in (map shard_view (shard_items places.now))) (contents_in (map store_view (store_items places.now))) node }
{
    match node {
        Node::File(file) => has_file(places, file),
        Node::Dir(dir) => has_dir(places, dir),
    }
}

// Whether a row of the shard names a node that has no record.
fn shard_lacks(places: &[Place], shard: &Shard) -> bool
    ensures { result ≡ list_any (λ e. not (has_record (contents_in (map shard_view (shard_items places.now))) (contents_in (map store_view (store_items places.now))) e.1.node)) (finmap.entries (shards.contents_of shard.now).rows) }
{
    let mut at = None;
    while let Some((here, name, row)) = shard.next_row(at) {
        if !has_record(places, row.node) {
            return true;
        }
        at = Some((here, name));
    }
    false
}

// Whether the place is a shard, and a row of it names a node that has no record.
fn place_lacks(places: &[Place], place: &Place) -> bool
    ensures { result ≡ any_lacks (has_record (contents_in (map shard_view (shard_items places.now))) (contents_in (map store_view (store_items places.now)))) (contents_in (map shard_view (shard_items (place.now ∷ [])))) }
{
    match place {
        Place::Shard(shard) => shard_lacks(places, shard),
        _ => false,
    }
}

// Whether a row of some shard names a node that has no record.
fn any_lacks(places: &[Place]) -> bool
    ensures { result ≡ any_lacks (has_record (contents_in (map shard_view (shard_items places.now))) (contents_in (map store_view (store_items places.now)))) (contents_in (map shard_view (shard_items places.now))) }
{
    for place in places {
        if place_lacks(places, place) {
            return true;
        }
    }
    false
}

/// Whether the node of each row has a record. It takes no memory, and looks in all places for each row's node.
pub fn attributes_hold(places: &Places) -> bool
    requires { IsService places.now }
    ensures { (result ≡ true) ↔ AttributesHold (held places.now).service.shard (held places.now).service.store }
{
    !any_lacks(places.as_slice())
}
