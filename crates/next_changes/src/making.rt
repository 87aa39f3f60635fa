//! The change that a line of the table tells.
ghost use Rattle.std.specs.Prelude.{◌≡◌, ℕ, Some, OnOk, OnErr};
ghost use Rattle.std.specs.FinMap as map;
ghost use Rattle.next_ids.specs.Attributes.{CanFold};
ghost use Rattle.next_ids.specs.declared.ids.Stamp.{Stamp};
ghost use Rattle.next_steps.specs.declared.contents.DirRec.{DirRec};
ghost use Rattle.next_rules.specs.Changes.{set_rec, set_lock};
ghost use Rattle.next_contents.specs.Shown.{contents_of, place_of};
ghost use Rattle.next_lines.specs.Lines.{after};
ghost use Rattle.next_changes.specs.Kinds.{IsInPlace, IsOfJobOrInPlace};

use crate::moving::{JobMove, commit};
use crate::rows::{cut_row, cut_source, set_row, swap_rows};
use next_contents::Contents;
use next_ids::{DirId, Name, NoMemory, Stamp};
use next_lines::Change;
use next_steps::{DirRec, RowLock};

// Puts a directory's record.
fn put_rec(contents: &mut Contents, dir: DirId, rec: DirRec) -> Result<(), NoMemory>
    ensures ok { OnOk result (contents_of contents.new ≡ set_rec (contents_of contents.old) dir rec) }
    ensures err { OnErr result (contents_of contents.new ≡ contents_of contents.old) }
    ensures place { place_of contents.new ≡ place_of contents.old }
{
    contents.set_rec(dir, rec)?;
    Ok(())
}

// Sets a lock on a name.
fn set_lock(contents: &mut Contents, dir: DirId, name: Name, lock: RowLock) -> Result<(), NoMemory>
    ensures ok { OnOk result (contents_of contents.new ≡ set_lock (contents_of contents.old) dir name lock) }
    ensures err { OnErr result (contents_of contents.new ≡ contents_of contents.old) }
    ensures place { place_of contents.new ≡ place_of contents.old }
{
    contents.set_lock(dir, name, lock)?;
    Ok(())
}

// Makes a change that only cuts, or only writes to records that are there. It takes no memory.
fn make_in_place(contents: &mut Contents, change: Change)
    requires kind { IsInPlace change }
    requires folds { (d : ℕ) (r : DirRec) → map.get (contents_of contents.old).recs d ≡ Some r → CanFold r.base r.pending }
    ensures contents { (at : Stamp) → at.place ≡ place_of contents.old → contents_of contents.new ≡ after at (contents_of contents.old) change }
    ensures place { place_of contents.new ≡ place_of contents.old }
{
    match change {
        Change::Mark(note) => contents.mark(note),
        Change::Settle(dir) => contents.settle(dir),
        Change::LockRec { child, job, kind } => contents.lock_rec(child, job, kind),
        Change::UnlockRec(child) => contents.unlock_rec(child),
        Change::Rebase { child, dir, name } => contents.rebase(child, (dir, name)),
        Change::Merge => contents.merge(),
        Change::CutRec(dir) => {
            let _ = contents.cut_rec(dir);
        }
        Change::EndDebt(node) => {
            let _ = contents.end_debt(node);
        }
        Change::EndLock { dir, name } => {
            let _ = contents.end_lock(dir, &name);
        }
        // What is left is the change that keeps all.
        _ => {}
    }
}

// Makes a change of a job's rows, or one that takes no memory.
fn make_for_job(contents: &mut Contents, at: Stamp, change: Change) -> Result<(), NoMemory>
    requires kind { IsOfJobOrInPlace change }
    requires own { at.place ≡ place_of contents.old }
    requires folds { (d : ℕ) (r : DirRec) → map.get (contents_of contents.old).recs d ≡ Some r → CanFold r.base r.pending }
    ensures ok { OnOk result (contents_of contents.new ≡ after at (contents_of contents.old) change) }
    ensures err { OnErr result (contents_of contents.new ≡ contents_of contents.old) }
    ensures place { place_of contents.new ≡ place_of contents.old }
{
    match change {
        Change::CutSource { dir, name, ts } => cut_source(contents, dir, &name, ts),
        Change::Commit {
            job,
            dir,
            name,
            to_dir,
            to_name,
            node,
            old,
            ts,
        } => {
            commit(
                contents,
                at,
                &JobMove {
                    job,
                    dir,
                    name,
                    to_dir,
                    to_name,
                    node,
                    old,
                    ts,
                },
            )
        }
        change => {
            make_in_place(contents, change);
            Ok(())
        }
    }
}

/// Makes the change that a line of the table tells, at a step with this stamp. The Err is want of memory: the shard is as
/// before. It needs that the pending changes of each record can be folded.
pub fn make(contents: &mut Contents, at: Stamp, change: Change) -> Result<(), NoMemory>
    requires own { at.place ≡ place_of contents.old }
    requires folds { (d : ℕ) (r : DirRec) → map.get (contents_of contents.old).recs d ≡ Some r → CanFold r.base r.pending }
    ensures ok { OnOk result (contents_of contents.new ≡ after at (contents_of contents.old) change) }
    ensures err { OnErr result (contents_of contents.new ≡ contents_of contents.old) }
    ensures place { place_of contents.new ≡ place_of contents.old }
{
    match change {
        Change::PutRec { dir, rec } => put_rec(contents, dir, rec),
        Change::SetRow {
            dir,
            name,
            node,
            ts,
        } => set_row(contents, at, dir, name, node, ts),
        Change::CutRow {
            dir,
            name,
            node,
            owner,
            ts,
        } => cut_row(contents, at, dir, &name, node, owner, ts),
        Change::SwapRows {
            dir,
            name,
            to_name,
            file,
            old,
            owner,
            ts,
        } => swap_rows(contents, at, dir, &name, to_name, file, old, owner, ts),
        Change::SetLock { dir, name, lock } => set_lock(contents, dir, name, lock),
        change => make_for_job(contents, at, change),
    }
}
