//! The lines of the asks by which the Renamer locks records and names.
ghost use Rattle.std.specs.Prelude.{◌≡◌, IfOk, Some};
ghost use Rattle.std.specs.FinMap as map;
ghost use Rattle.next_ids.specs.Attributes.{CanFold};
ghost use Rattle.next_ids.specs.declared.ids.Stamp.{Stamp};
ghost use Rattle.next_steps.specs.declared.contents.DirRec.{DirRec};
ghost use Rattle.next_rules.specs.Locking.{lock_rec, lock_row, is_wanted, has_no_link, is_job, unlock_row, unlock_rec};
ghost use Rattle.next_contents.specs.Shown.{contents_of};
ghost use Rattle.next_lines.specs.Lines.{served_by, IsFit};

use crate::change::{Change, Line};
use crate::locks::{holder, lock_at, row_lock};
use crate::reads::{attr_of, is_named, node_at};
use next_contents::Contents;
use next_ids::{DirId, JobNo, Kind, LINK_MAX, Name, NoMemory, Node};
use next_steps::{Answer, DirRec, RowLock, Want};

/// LockRec: the record, a lock on it, whether it is named so, its mark; and for Replacing another's lock in it, its rows.
pub fn lock_rec(
    contents: &Contents,
    job: JobNo,
    child: DirId,
    dir: DirId,
    name: &Name,
    kind: Kind,
) -> Result<Line, NoMemory>
    ensures line { IfOk result (λ line. (at : Stamp) → served_by at (contents_of contents.now) line ≡ lock_rec (contents_of contents.now) job child dir name.now kind) }
    ensures fit { IfOk result (λ line. IsFit (contents_of contents.now) line.change) }
{
    let Some(rec) = contents.rec(child) else {
        return Ok(Line::quiet(Answer::Gone));
    };
    if let Some(other) = holder(rec) {
        return Ok(Line::quiet(Answer::Locked(other)));
    }
    if !is_named(rec, dir, name) {
        return Ok(Line::quiet(Answer::Gone));
    }
    if let Some(note) = &rec.mark {
        return Ok(Line::quiet(Answer::Leaving(note.copy()?)));
    }
    if let Some(other) = contents.other_in(job, kind, child) {
        return Ok(Line::quiet(Answer::Locked(other)));
    }
    if kind == Kind::Replacing && contents.has_rows(child) {
        return Ok(Line::quiet(Answer::NotEmpty));
    }
    Ok(Line::done(Change::LockRec { child, job, kind }))
}

// Whether what the name has is wanted.
fn is_wanted(want: Want, found: Option<Node>) -> bool
    ensures { result ≡ is_wanted want found }
{
    match (want, found) {
        (Want::This(node), Some(found)) => found == node,
        (Want::Nothing, None) | (Want::NotDir, None | Some(Node::File(_))) => true,
        _ => false,
    }
}

// Whether the directory with this record has as many links as one may have.
fn has_no_link(rec: &DirRec) -> bool
    requires { CanFold rec.now.base rec.now.pending }
    ensures { result ≡ has_no_link (Some rec.now) }
{
    2 + attr_of(rec).subdirs >= LINK_MAX
}

/// LockRow: the record, its mark, another's lock on it or at the name, whether the row is as wanted, whether a reservation
/// finds the directory full.
pub fn lock_row(
    contents: &Contents,
    dir: DirId,
    name: &Name,
    lock: RowLock,
    want: Want,
) -> Result<Line, NoMemory>
    requires { (r : DirRec) → map.get (contents_of contents.now).recs dir.0 ≡ Some r → CanFold r.base r.pending }
    ensures line { IfOk result (λ line. (at : Stamp) → served_by at (contents_of contents.now) line ≡ lock_row (contents_of contents.now) lock.job dir name.now lock.side want lock.reserves) }
    ensures fit { IfOk result (λ line. IsFit (contents_of contents.now) line.change) }
{
    let Some(rec) = contents.rec(dir) else {
        return Ok(Line::quiet(Answer::NoDir));
    };
    if let Some(note) = &rec.mark {
        return Ok(Line::quiet(Answer::Leaving(note.copy()?)));
    }
    if let Some(other) = row_lock(lock.job, contents, dir, name) {
        return Ok(Line::quiet(Answer::Locked(other)));
    }
    let found = node_at(contents, dir, name);
    if !is_wanted(want, found) {
        return Ok(Line::quiet(Answer::Changed(found)));
    }
    if lock.reserves && has_no_link(rec) {
        return Ok(Line::quiet(Answer::Full));
    }
    let name = name.copy()?;
    Ok(Line::done(Change::SetLock { dir, name, lock }))
}

/// Whether the lock is the job's.
pub fn is_job(job: JobNo, lock: Option<JobNo>) -> bool
    ensures { result ≡ is_job job lock }
{
    match lock {
        Some(other) => other.0 == job.0,
        None => false,
    }
}

/// UnlockRow: the lock is the job's.
pub fn unlock_row(
    contents: &Contents,
    job: JobNo,
    dir: DirId,
    name: &Name,
) -> Result<Line, NoMemory>
    ensures line { IfOk result (λ line. (at : Stamp) → served_by at (contents_of contents.now) line ≡ unlock_row (contents_of contents.now) job dir name.now) }
    ensures fit { IfOk result (λ line. IsFit (contents_of contents.now) line.change) }
{
    if !is_job(job, lock_at(contents, dir, name)) {
        return Ok(Line::quiet(Answer::None));
    }
    let name = name.copy()?;
    Ok(Line::done(Change::EndLock { dir, name }))
}

/// UnlockRec: the lock is the job's.
pub fn unlock_rec(contents: &Contents, job: JobNo, child: DirId) -> Line
    ensures line { (at : Stamp) → served_by at (contents_of contents.now) result ≡ unlock_rec (contents_of contents.now) job child }
    ensures fit { IsFit (contents_of contents.now) result.change }
{
    match contents.rec(child) {
        Some(rec) if is_job(job, holder(rec)) => Line::done(Change::UnlockRec(child)),
        _ => Line::quiet(Answer::None),
    }
}
