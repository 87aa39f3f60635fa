//! The lines of the asks that change one directory.
ghost use Rattle.std.specs.Prelude.{◌≡◌, ◌<◌, IfOk, Some};
ghost use Rattle.std.specs.Option.{option_map};
ghost use Rattle.std.specs.FinMap as map;
ghost use Rattle.next_ids.specs.Attributes.{CanFold};
ghost use Rattle.next_ids.specs.Maps.{row_key};
ghost use Rattle.next_ids.specs.declared.ids.Stamp.{Stamp};
ghost use Rattle.next_steps.specs.declared.contents.DirRec.{DirRec};
ghost use Rattle.next_steps.specs.Writers.{maker};
ghost use Rattle.next_rules.specs.Contents.{Shard, made_at};
ghost use Rattle.next_rules.specs.Changes.{node_in};
ghost use Rattle.next_rules.specs.Primitives.{put_dir, new_dir, insert_row, delete_row, delete_done, swap_rows, swap_onto};
ghost use Rattle.next_contents.specs.Shown.{contents_of};
ghost use Rattle.next_lines.specs.Lines.{served_by, IsFit};

use crate::change::{Change, Line, move_by};
use crate::locks::{insert_lock, lock_at, swap_lock};
use crate::reads::node_at;
use next_contents::{Contents, Room};
use next_ids::{Call, Client, DeltaList, DirAttr, DirId, FileId, Name, NoMemory, Node, Stamp, Ts};
use next_steps::{Answer, DirRec, Move, Moved, maker};
use std::alloc::Global;

// The record of a new directory, which its client means to name so.
fn new_rec(alloc: Global, client: Client, dir: DirId, name: Name, time: Ts) -> DirRec
    ensures { result ≡ new_dir client dir name time }
{
    DirRec {
        base: DirAttr {
            children: 0,
            subdirs: 0,
            time,
        },
        pending: DeltaList::new(alloc),
        back: Some((dir, name)),
        owner: Some(client),
        mark: None,
        lock: None,
    }
}

// The directory that the step with this stamp makes.
fn made_at(at: Stamp) -> DirId
    requires { at.number < 1099511627777 }
    ensures { result.0 ≡ made_at at }
{
    DirId(64 * at.number + u64::from(at.place.0 % 64))
}

/// PutDir: a directory without rows, which its client means to name here.
pub fn put_dir(
    alloc: Global,
    at: Stamp,
    moment: u64,
    client: Client,
    dir: DirId,
    name: &Name,
) -> Result<Line, NoMemory>
    requires { at.number < 1099511627777 }
    ensures line { IfOk result (λ line. (s : Shard) → served_by at s line ≡ put_dir s at moment client dir name.now) }
    ensures fit { (s : Shard) → IfOk result (λ line. IsFit s line.change) }
{
    let child = made_at(at);
    let time = Ts {
        moment,
        number: at.number,
    };
    let name = name.copy()?;
    Ok(Line {
        answer: Answer::New(Node::Dir(child)),
        change: Change::PutRec {
            dir: child,
            rec: new_rec(alloc, client, dir, name, time),
        },
        moved: None,
    })
}

// The move of an Insert.
fn made(client: Client, dir: DirId, name: &Name, node: Node, ts: Ts) -> Result<Moved, NoMemory>
    ensures { IfOk result (λ moved. moved ≡ Moved.Move (record { client = client; call = maker dir name.now node; ts = ts; made = Some node })) }
{
    let call = maker(dir, name, node)?;
    Ok(Moved::Move(Move {
        client,
        call,
        ts,
        made: Some(node),
    }))
}

/// Insert: the record, its mark, a lock, the row, the room for a directory.
pub fn insert(
    contents: &Contents,
    client: Client,
    dir: DirId,
    name: &Name,
    node: Node,
    ts: Ts,
) -> Result<Line, NoMemory>
    requires { (r : DirRec) → map.get (contents_of contents.now).recs dir.0 ≡ Some r → CanFold r.base r.pending }
    ensures line { IfOk result (λ line. (at : Stamp) → served_by at (contents_of contents.now) line ≡ insert_row (contents_of contents.now) at client dir name.now node ts) }
    ensures fit { IfOk result (λ line. IsFit (contents_of contents.now) line.change) }
{
    let Some(rec) = contents.rec(dir) else {
        return Ok(Line::quiet(Answer::NoDir));
    };
    if let Some(note) = &rec.mark {
        return Ok(Line::quiet(Answer::Leaving(note.copy()?)));
    }
    if let Some(job) = insert_lock(contents, dir, name) {
        return Ok(Line::quiet(Answer::Locked(job)));
    }
    if contents.row(dir, name).is_some() {
        return Ok(Line::quiet(Answer::Exists));
    }
    match contents.room_in(dir, node) {
        Room::IsFull => Ok(Line::quiet(Answer::Full)),
        Room::DependsOn(job) => Ok(Line::quiet(Answer::Locked(job))),
        Room::HasRoom => {
            let moved = made(client, dir, name, node, ts)?;
            let name = name.copy()?;
            Ok(Line {
                answer: Answer::Done(None),
                change: Change::SetRow {
                    dir,
                    name,
                    node,
                    ts,
                },
                moved: Some(moved),
            })
        }
    }
}

// Delete at a file's row: the row goes, and the client has a debt for the file.
fn deleted(client: Client, dir: DirId, name: &Name, ts: Ts, node: Node) -> Result<Line, NoMemory>
    ensures line { IfOk result (λ line. (s : Shard) (at : Stamp) → served_by at s line ≡ delete_done s at client dir name.now ts node) }
    ensures fit { (s : Shard) → IfOk result (λ line. IsFit s line.change) }
{
    let call = Call::Unlink {
        dir,
        name: name.copy()?,
    };
    let name = name.copy()?;
    Ok(Line {
        answer: Answer::Done(Some(node)),
        change: Change::CutRow {
            dir,
            name,
            node,
            owner: client,
            ts,
        },
        moved: move_by(client, call, ts),
    })
}

/// Delete: a lock at the name, the row's node.
pub fn delete(
    contents: &Contents,
    client: Client,
    dir: DirId,
    name: &Name,
    ts: Ts,
) -> Result<Line, NoMemory>
    ensures line { IfOk result (λ line. (at : Stamp) → served_by at (contents_of contents.now) line ≡ delete_row (contents_of contents.now) at client dir name.now ts) }
    ensures fit { IfOk result (λ line. IsFit (contents_of contents.now) line.change) }
{
    if let Some(job) = lock_at(contents, dir, name) {
        return Ok(Line::quiet(Answer::Locked(job)));
    }
    match node_at(contents, dir, name) {
        None => Ok(Line::quiet(Answer::Absent)),
        Some(Node::Dir(_)) => Ok(Line::quiet(Answer::IsDir)),
        Some(Node::File(file)) => deleted(client, dir, name, ts, Node::File(file)),
    }
}

// Swap of a file's row where the new name has the file `old` or none: the row goes to the new name, and the client has a
// debt for the file that had it.
fn swapped(
    client: Client,
    dir: DirId,
    name: &Name,
    to_name: &Name,
    ts: Ts,
    file: FileId,
    old: Option<FileId>,
) -> Result<Line, NoMemory>
    ensures line { IfOk result (λ line. (s : Shard) (at : Stamp) → served_by at s line ≡ swap_onto s at client dir name.now to_name.now ts file (option_map Node.File old)) }
    ensures fit { (s : Shard) → IfOk result (λ line. IsFit s line.change) }
{
    let call = Call::Rename {
        dir,
        name: name.copy()?,
        to_dir: dir,
        to_name: to_name.copy()?,
    };
    let name = name.copy()?;
    let to_name = to_name.copy()?;
    let replaced = match old {
        Some(old) => Some(Node::File(old)),
        None => None,
    };
    Ok(Line {
        answer: Answer::Done(replaced),
        change: Change::SwapRows {
            dir,
            name,
            to_name,
            file,
            old,
            owner: client,
            ts,
        },
        moved: move_by(client, call, ts),
    })
}

// Swap of a file's row: the node at the new name.
fn swap_onto(
    contents: &Contents,
    client: Client,
    dir: DirId,
    name: &Name,
    to_name: &Name,
    ts: Ts,
    file: FileId,
) -> Result<Line, NoMemory>
    ensures line { IfOk result (λ line. (at : Stamp) → served_by at (contents_of contents.now) line ≡ swap_onto (contents_of contents.now) at client dir name.now to_name.now ts file (node_in (map.get (contents_of contents.now).rows (row_key dir to_name.now)))) }
    ensures fit { IfOk result (λ line. IsFit (contents_of contents.now) line.change) }
{
    match node_at(contents, dir, to_name) {
        Some(Node::Dir(_)) => Ok(Line::quiet(Answer::TargetIsDir)),
        Some(Node::File(old)) => swapped(client, dir, name, to_name, ts, file, Some(old)),
        None => swapped(client, dir, name, to_name, ts, file, None),
    }
}

/// Swap: a lock at either name, the row's node, whether the names are one, the node at the new name.
pub fn swap(
    contents: &Contents,
    client: Client,
    dir: DirId,
    name: &Name,
    to_name: &Name,
    ts: Ts,
) -> Result<Line, NoMemory>
    ensures line { IfOk result (λ line. (at : Stamp) → served_by at (contents_of contents.now) line ≡ swap_rows (contents_of contents.now) at client dir name.now to_name.now ts) }
    ensures fit { IfOk result (λ line. IsFit (contents_of contents.now) line.change) }
{
    if let Some(job) = swap_lock(contents, dir, name, to_name) {
        return Ok(Line::quiet(Answer::Locked(job)));
    }
    let Some(node) = node_at(contents, dir, name) else {
        return Ok(Line::quiet(Answer::Absent));
    };
    if name == to_name {
        return Ok(Line::quiet(Answer::Same));
    }
    match node {
        Node::Dir(_) => Ok(Line::quiet(Answer::SourceIsDir)),
        Node::File(file) => swap_onto(contents, client, dir, name, to_name, ts, file),
    }
}
