//! The changes of the shard's table.
ghost use Rattle.std.specs.Prelude.{◌≡◌, ◌+◌, ◌<◌, ◌^◌, ℕ, Some, OnOk, OnErr, length, IsSome};
ghost use Rattle.std.specs.FinMap as map;
ghost use Rattle.cfs_ids.specs.Maps.{row_key};
ghost use Rattle.cfs_ids.specs.Namespace.{is_dir};
ghost use Rattle.cfs_steps.specs.declared.contents.DirRec.{DirRec};
ghost use Rattle.cfs_table.specs.Tables.{contents_of};
ghost use Rattle.cfs_rules.specs.Places.{serve_free, unless_locked, inserted, updated, with_recs, put_dir, settled_dir, taken_back_dir};
ghost use Rattle.cfs_shard.specs.Bounds.{Within, CountsWithin};

use crate::answers::{is_owner, made};
use cfs_ids::{Client, DirAttr, DirId, JobNo, Name, NoMemory, Node, Stamp, Ts, later};
use cfs_steps::Ask;
use cfs_table::{DirRec, Row, Table};

// The attributes with one more row that names the node.
fn with_row(attr: DirAttr, node: Node, ts: Ts) -> DirAttr
    requires children { attr.children + 1 < 2 ^ 64 }
    requires subdirs { attr.subdirs + 1 < 2 ^ 64 }
    ensures { result ≡ updated attr node ts }
{
    let more = match node {
        Node::Dir(_) => 1,
        Node::File(_) => 0,
    };
    DirAttr {
        children: attr.children + 1,
        subdirs: attr.subdirs + more,
        time: later(attr.time, ts),
    }
}

// Sets a row at a free name of a directory that is there.
fn set_row(
    table: &mut Table,
    dir: DirId,
    name: &Name,
    row: Row,
    rec: DirRec,
) -> Result<(), NoMemory>
    requires there { IsSome (map.get (contents_of table.old).recs dir.0) }
    ensures rows { OnOk result ((contents_of table.new).rows ≡ map.insert (contents_of table.old).rows (row_key dir name.now) row) }
    ensures recs { OnOk result ((contents_of table.new).recs ≡ map.insert (contents_of table.old).recs dir.0 rec) }
    ensures err { OnErr result (table.new ≡ table.old) }
{
    let name = name.copy()?;
    if table.set_row(dir, name, row).is_err() {
        return Err(NoMemory);
    }
    let _ = table.set_rec(dir, rec);
    Ok(())
}

// Sets the row of an Insert and makes the attribute update, where the directory is there and the name is free.
fn insert(
    table: &mut Table,
    at: Stamp,
    dir: DirId,
    name: &Name,
    node: Node,
    ts: Ts,
) -> Result<(), NoMemory>
    requires { CountsWithin 9223372036854775807 (contents_of table.old) }
    ensures ok { OnOk result ((client : _) → contents_of table.new ≡ (inserted (contents_of table.old) at client dir name.now node ts (map.get (contents_of table.old).recs dir.0) (map.get (contents_of table.old).rows (row_key dir name.now))).contents) }
    ensures err { OnErr result (table.new ≡ table.old) }
{
    let Some(rec) = table.rec(dir) else {
        return Ok(());
    };
    if table.row(dir, name).is_some() {
        return Ok(());
    }
    let attr = with_row(rec.attr, node, ts);
    let rec = DirRec {
        attr,
        ..rec.copy()?
    };
    set_row(table, dir, name, Row { node, stamp: at }, rec)
}

// Sets the record of a directory.
fn set_rec(table: &mut Table, dir: DirId, rec: DirRec) -> Result<(), NoMemory>
    ensures ok { OnOk result (contents_of table.new ≡ with_recs (contents_of table.old) (map.insert (contents_of table.old).recs dir.0 rec)) }
    ensures err { OnErr result (table.new ≡ table.old) }
{
    match table.set_rec(dir, rec) {
        Ok(_) => Ok(()),
        Err(_) => Err(NoMemory),
    }
}

// Puts a directory without rows, which the client owns.
fn put(
    table: &mut Table,
    at: Stamp,
    client: Client,
    dir: DirId,
    name: &Name,
) -> Result<(), NoMemory>
    requires { at.number < 1099511627777 }
    ensures ok { OnOk result (contents_of table.new ≡ (put_dir (contents_of table.old) at client dir name.now).contents) }
    ensures err { OnErr result (table.new ≡ table.old) }
{
    let attr = DirAttr {
        children: 0,
        subdirs: 0,
        time: at.number,
    };
    let rec = DirRec {
        attr,
        back: Some((dir, name.copy()?)),
        owner: Some(client),
        lock: None,
    };
    set_rec(table, made(at), rec)
}

// Ends the ownership of a directory's record.
fn settle(table: &mut Table, dir: DirId) -> Result<(), NoMemory>
    ensures ok { OnOk result (contents_of table.new ≡ (settled_dir (contents_of table.old) dir (map.get (contents_of table.old).recs dir.0)).contents) }
    ensures err { OnErr result (table.new ≡ table.old) }
{
    let Some(rec) = table.rec(dir) else {
        return Ok(());
    };
    if rec.owner.is_none() {
        return Ok(());
    }
    let rec = DirRec {
        owner: None,
        ..rec.copy()?
    };
    set_rec(table, dir, rec)
}

// Removes the record of a directory that the client owns.
fn take_back(table: &mut Table, client: Client, dir: DirId)
    ensures { contents_of table.new ≡ (taken_back_dir (contents_of table.old) client dir (map.get (contents_of table.old).recs dir.0)).contents }
{
    let Some(rec) = table.rec(dir) else {
        return;
    };
    if is_owner(rec.owner, client) {
        let _ = table.cut_rec(dir);
    }
}

// Makes the table's change at a step where no lock is met.
fn change(table: &mut Table, at: Stamp, ask: &Ask) -> Result<(), NoMemory>
    requires counts { CountsWithin 9223372036854775807 (contents_of table.old) }
    requires number { at.number < 1099511627777 }
    ensures ok { OnOk result (contents_of table.new ≡ (serve_free (contents_of table.old) at ask.now).contents) }
    ensures err { OnErr result (table.new ≡ table.old) }
{
    match ask {
        Ask::Insert {
            dir,
            name,
            node,
            ts,
            ..
        } => insert(table, at, *dir, name, *node, *ts),
        Ask::PutDir {
            client,
            dir,
            name,
            ..
        } => put(table, at, *client, *dir, name),
        Ask::Settle {
            node: Node::Dir(dir),
        } => settle(table, *dir),
        Ask::TakeBack {
            client,
            node: Node::Dir(dir),
        } => {
            take_back(table, *client, *dir);
            Ok(())
        }
        _ => Ok(()),
    }
}

/// Makes the table's change at a step, where the lock of this job is met, which stops each change, or none.
pub fn change_unless(
    met: Option<JobNo>,
    table: &mut Table,
    at: Stamp,
    ask: &Ask,
) -> Result<(), NoMemory>
    requires counts { CountsWithin 9223372036854775807 (contents_of table.old) }
    requires number { at.number < 1099511627777 }
    ensures ok { OnOk result (contents_of table.new ≡ (unless_locked met (contents_of table.old) (serve_free (contents_of table.old) at ask.now)).contents) }
    ensures err { OnErr result (table.new ≡ table.old) }
{
    match met {
        Some(_) => Ok(()),
        None => change(table, at, ask),
    }
}
