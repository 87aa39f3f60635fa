//! The lines of the asks that remove a directory.
ghost use Rattle.std.specs.Prelude.{◌≡◌, IfOk, [], ◌∷◌};
ghost use Rattle.next_ids.specs.declared.ids.Stamp.{Stamp};
ghost use Rattle.next_steps.specs.Removers.{note_of};
ghost use Rattle.next_rules.specs.Contents.{Shard};
ghost use Rattle.next_rules.specs.Removing.{mark_rec, remove_row, remove_done, names_it};
ghost use Rattle.next_contents.specs.Shown.{contents_of, place_of};
ghost use Rattle.next_lines.specs.Lines.{served_by, IsFit};

use crate::change::{Change, Line, move_by};
use crate::locks::holder;
use crate::reads::{is_named, node_at};
use next_contents::Contents;
use next_ids::{Call, Client, DirId, MarkNote, Name, NoMemory, Node, Ts};
use next_steps::Answer;

/// Mark: the record, a lock on it, whether it is named so, its mark, a lock in it, its rows.
pub fn mark(
    contents: &Contents,
    client: Client,
    child: DirId,
    dir: DirId,
    name: &Name,
    ts: Ts,
) -> Result<Line, NoMemory>
    ensures line { IfOk result (λ line. (at : Stamp) → served_by at (contents_of contents.now) line ≡ mark_rec (contents_of contents.now) (note_of client dir name.now child ts)) }
    ensures fit { IfOk result (λ line. IsFit (contents_of contents.now) line.change) }
{
    let Some(rec) = contents.rec(child) else {
        return Ok(Line::quiet(Answer::Gone));
    };
    if let Some(job) = holder(rec) {
        return Ok(Line::quiet(Answer::Locked(job)));
    }
    if !is_named(rec, dir, name) {
        return Ok(Line::quiet(Answer::Gone));
    }
    if let Some(note) = &rec.mark {
        return Ok(Line::quiet(Answer::Leaving(note.copy()?)));
    }
    if let Some(job) = contents.lock_in(child) {
        return Ok(Line::quiet(Answer::Locked(job)));
    }
    if contents.has_rows(child) {
        return Ok(Line::quiet(Answer::NotEmpty));
    }
    let name = name.copy()?;
    Ok(Line::done(Change::Mark(MarkNote {
        owner: client,
        child,
        dir,
        name,
        ts,
    })))
}

// Whether the node is the directory.
fn names_it(child: DirId, node: Option<Node>) -> bool
    ensures { result ≡ names_it child node }
{
    match node {
        Some(Node::Dir(dir)) => dir.0 == child.0,
        _ => false,
    }
}

// Remove at the directory's row: the row goes, and the mark's owner has a debt for the directory.
fn removed(note: &MarkNote) -> Result<Line, NoMemory>
    ensures line { IfOk result (λ line. (s : Shard) (at : Stamp) → served_by at s line ≡ remove_done s at note.now) }
    ensures fit { (s : Shard) → IfOk result (λ line. IsFit s line.change) }
{
    let node = Node::Dir(note.child);
    let call = Call::Rmdir {
        dir: note.dir,
        name: note.name.copy()?,
    };
    let name = note.name.copy()?;
    Ok(Line {
        answer: Answer::Done(None),
        change: Change::CutRow {
            dir: note.dir,
            name,
            node,
            owner: note.owner,
            ts: note.ts,
        },
        moved: move_by(note.owner, call, note.ts),
    })
}

/// Remove: a debt for the directory, whether the row names it; a lock isn't asked for.
pub fn remove(contents: &Contents, note: &MarkNote) -> Result<Line, NoMemory>
    ensures line { IfOk result (λ line. (at : Stamp) → at.place ≡ place_of contents.now → served_by at (contents_of contents.now) line ≡ remove_row (contents_of contents.now) at note.now) }
    ensures fit { IfOk result (λ line. IsFit (contents_of contents.now) line.change) }
{
    if let Some(debt) = contents.debt(Node::Dir(note.child)) {
        return Ok(Line::quiet(Answer::Already(debt.stamp)));
    }
    if names_it(note.child, node_at(contents, note.dir, &note.name)) {
        removed(note)
    } else {
        Ok(Line::quiet(Answer::Absent))
    }
}
