//! The lines of the asks by which the Renamer moves a node.
ghost use Rattle.std.specs.Prelude.{◌≡◌, IfOk};
ghost use Rattle.std.specs.FinMap as map;
ghost use Rattle.next_ids.specs.declared.ids.Stamp.{Stamp};
ghost use Rattle.next_ids.specs.Maps.{row_key};
ghost use Rattle.next_rules.specs.Moving.{has_target, commit, cut_source, rebase};
ghost use Rattle.next_contents.specs.Shown.{contents_of};
ghost use Rattle.next_lines.specs.Lines.{served_by, IsFit};

use crate::change::{Change, Line, move_by};
use crate::locking::is_job;
use crate::locks::{holder, source_at};
use crate::reads::node_at;
use next_contents::Contents;
use next_ids::{Call, Client, DirId, JobNo, Name, NoMemory, Node, Side, Ts};
use next_steps::{Answer, RowLock};

// Whether the lock is the job's, on the name that it takes.
fn has_target(job: JobNo, lock: Option<RowLock>) -> bool
    ensures { result ≡ has_target job lock }
{
    match lock {
        Some(
            RowLock {
                job: other,
                side: Side::Target,
                ..
            },
        ) => other.0 == job.0,
        _ => false,
    }
}

/// Commit: the job has a Target lock at the new name.
pub fn commit(
    contents: &Contents,
    job: JobNo,
    client: Client,
    from: (DirId, &Name),
    to: (DirId, &Name),
    node: Node,
    ts: Ts,
) -> Result<Line, NoMemory>
    ensures line { IfOk result (λ line. (at : Stamp) → served_by at (contents_of contents.now) line ≡ commit (contents_of contents.now) at job client from.entry.0 from.entry.1.now to.entry.0 to.entry.1.now node ts) }
    ensures fit { IfOk result (λ line. IsFit (contents_of contents.now) line.change) }
{
    let (dir, name) = from;
    let (to_dir, to_name) = to;
    if !has_target(job, contents.lock(to_dir, to_name)) {
        return Ok(Line::quiet(Answer::None));
    }
    let old = node_at(contents, to_dir, to_name);
    let call = Call::Rename {
        dir,
        name: name.copy()?,
        to_dir,
        to_name: to_name.copy()?,
    };
    let name = name.copy()?;
    let to_name = to_name.copy()?;
    Ok(Line {
        answer: Answer::Done(old),
        change: Change::Commit {
            job,
            dir,
            name,
            to_dir,
            to_name,
            node,
            old,
            ts,
        },
        moved: move_by(client, call, ts),
    })
}

/// CutSource: the job has a Source lock at the old name.
pub fn cut_source(
    contents: &Contents,
    job: JobNo,
    dir: DirId,
    name: &Name,
    ts: Ts,
) -> Result<Line, NoMemory>
    ensures line { IfOk result (λ line. (at : Stamp) → served_by at (contents_of contents.now) line ≡ cut_source (contents_of contents.now) job dir name.now ts) }
    ensures fit { IfOk result (λ line. IsFit (contents_of contents.now) line.change) }
{
    if !is_job(job, source_at(contents, dir, name)) {
        return Ok(Line::quiet(Answer::None));
    }
    let name = name.copy()?;
    Ok(Line::done(Change::CutSource { dir, name, ts }))
}

/// Rebase: the job has locked the record.
pub fn rebase(
    contents: &Contents,
    job: JobNo,
    child: DirId,
    dir: DirId,
    name: &Name,
) -> Result<Line, NoMemory>
    ensures line { IfOk result (λ line. (at : Stamp) → served_by at (contents_of contents.now) line ≡ rebase (contents_of contents.now) job child dir name.now) }
    ensures fit { IfOk result (λ line. IsFit (contents_of contents.now) line.change) }
{
    let Some(rec) = contents.rec(child) else {
        return Ok(Line::quiet(Answer::None));
    };
    if !is_job(job, holder(rec)) {
        return Ok(Line::quiet(Answer::None));
    }
    let name = name.copy()?;
    Ok(Line::done(Change::Rebase { child, dir, name }))
}
