//! The changes of rows in one directory. What may want memory is done first, and is undone where a later part fails.
ghost use Rattle.std.specs.Prelude.{◌≡◌, [], OnOk, OnErr};
ghost use Rattle.std.specs.Option.{option_map};
ghost use Rattle.std.specs.FinMap as map;
ghost use Rattle.next_ids.specs.Maps.{Names, row_key};
ghost use Rattle.next_ids.specs.declared.ids.Node.TheVariants.{File};
ghost use Rattle.next_steps.specs.declared.contents.Row.{Row};
ghost use Rattle.next_rules.specs.Changes.{cut_row, end_lock, update, nodes_in};
ghost use Rattle.next_contents.specs.Shown.{contents_of, place_of};
ghost use Rattle.next_lines.specs.declared.change.Change.TheVariants.{SetRow, CutRow, SwapRows};
ghost use Rattle.next_lines.specs.Lines.{after, one_or_none};

use crate::deltas::delta;
use crate::owing::leave;
use crate::undo::undo_row;
use next_contents::Contents;
use next_ids::{Actor, Client, DirId, FileId, Name, NoMemory, Node, Stamp, Ts};

/// Sets a row, and leaves the change of its directory's attributes. The Err is want of memory: the shard is as before.
pub fn set_row(
    contents: &mut Contents,
    at: Stamp,
    dir: DirId,
    name: Name,
    node: Node,
    ts: Ts,
) -> Result<(), NoMemory>
    ensures ok { OnOk result (contents_of contents.new ≡ after at (contents_of contents.old) (SetRow dir name node ts)) }
    ensures err { OnErr result (contents_of contents.new ≡ contents_of contents.old) }
    ensures place { place_of contents.new ≡ place_of contents.old }
{
    let before = contents.set_row(dir, name.copy()?, node, at)?;
    match contents.push_delta(dir, delta(Some(node), None, None, ts)) {
        Ok(()) => Ok(()),
        Err(want) => {
            undo_row(contents, dir, name, before);
            Err(want)
        }
    }
}

/// Cuts the row of a node, and leaves its client a debt for it. The Err is want of memory: the shard is as before.
pub fn cut_row(
    contents: &mut Contents,
    at: Stamp,
    dir: DirId,
    name: &Name,
    node: Node,
    owner: Client,
    ts: Ts,
) -> Result<(), NoMemory>
    requires { at.place ≡ place_of contents.old }
    ensures ok { OnOk result (contents_of contents.new ≡ after at (contents_of contents.old) (CutRow dir name.now node owner ts)) }
    ensures err { OnErr result (contents_of contents.new ≡ contents_of contents.old) }
    ensures place { place_of contents.new ≡ place_of contents.old }
{
    let gone = Some(node);
    leave(
        contents,
        at,
        dir,
        delta(None, gone, None, ts),
        Actor::Client(owner),
        gone,
    )?;
    let _ = contents.cut_row(dir, name);
    Ok(())
}

// Cuts the row at the name that a row leaves for another name, unless the two are one.
fn cut_other(contents: &mut Contents, dir: DirId, name: &Name, to_name: &Name)
    ensures contents { (rows : Names Row) (row : Row) → (contents_of contents.old).rows ≡ map.insert rows (row_key dir to_name.now) row → contents_of contents.new ≡ record (contents_of contents.old) { rows = map.insert (map.remove rows (row_key dir name.now)) (row_key dir to_name.now) row } }
    ensures place { place_of contents.new ≡ place_of contents.old }
{
    if name != to_name {
        let _ = contents.cut_row(dir, name);
    }
}

// The node of a file.
fn file_node(file: Option<FileId>) -> Option<Node>
    ensures { result ≡ option_map File file }
{
    match file {
        Some(file) => Some(Node::File(file)),
        None => None,
    }
}

/// Moves a file's row to another name of its directory, and leaves its client a debt for the file that had that. The Err
/// is want of memory: the shard is as before.
pub fn swap_rows(
    contents: &mut Contents,
    at: Stamp,
    dir: DirId,
    name: &Name,
    to_name: Name,
    file: FileId,
    old: Option<FileId>,
    owner: Client,
    ts: Ts,
) -> Result<(), NoMemory>
    requires { at.place ≡ place_of contents.old }
    ensures ok { OnOk result (contents_of contents.new ≡ after at (contents_of contents.old) (SwapRows dir name.now to_name file old owner ts)) }
    ensures err { OnErr result (contents_of contents.new ≡ contents_of contents.old) }
    ensures place { place_of contents.new ≡ place_of contents.old }
{
    let node = Node::File(file);
    let before = contents.set_row(dir, to_name.copy()?, node, at)?;
    let lost = file_node(old);
    let change = delta(Some(node), Some(node), lost, ts);
    match leave(contents, at, dir, change, Actor::Client(owner), lost) {
        Ok(()) => {
            cut_other(contents, dir, name, &to_name);
            Ok(())
        }
        Err(want) => {
            undo_row(contents, dir, to_name, before);
            Err(want)
        }
    }
}

// The node that the row at a name of the directory names.
pub(crate) fn node_at(contents: &Contents, dir: DirId, name: &Name) -> Option<Node>
    ensures { one_or_none result ≡ nodes_in (map.get (contents_of contents.now).rows (row_key dir name.now)) }
{
    match contents.row(dir, name) {
        Some(row) => Some(row.node),
        None => None,
    }
}

/// Cuts the row and the lock at the name that a job gives up. The Err is want of memory: the shard is as before.
pub fn cut_source(contents: &mut Contents, dir: DirId, name: &Name, ts: Ts) -> Result<(), NoMemory>
    ensures ok { OnOk result (contents_of contents.new ≡ update (end_lock (cut_row (contents_of contents.old) dir name.now) dir name.now) dir [] (nodes_in (map.get (contents_of contents.old).rows (row_key dir name.now))) ts (map.get (contents_of contents.old).recs dir.0)) }
    ensures err { OnErr result (contents_of contents.new ≡ contents_of contents.old) }
    ensures place { place_of contents.new ≡ place_of contents.old }
{
    let gone = node_at(contents, dir, name);
    contents.push_delta(dir, delta(None, gone, None, ts))?;
    let _ = contents.cut_row(dir, name);
    let _ = contents.end_lock(dir, name);
    Ok(())
}
