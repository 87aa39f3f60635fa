//! The table of the shard: the line that an ask meets.
ghost use Rattle.std.specs.Prelude.{◌≡◌, ◌<◌, ℕ, IfOk, Some};
ghost use Rattle.std.specs.FinMap as map;
ghost use Rattle.next_ids.specs.Attributes.{CanFold};
ghost use Rattle.next_steps.specs.declared.contents.DirRec.{DirRec};
ghost use Rattle.next_rules.specs.Places.{serve_shard};
ghost use Rattle.next_contents.specs.Shown.{contents_of, place_of};
ghost use Rattle.next_lines.specs.Lines.{served_by, IsFit};

use crate::change::{Change, Line};
use crate::locking::{lock_rec, lock_row, unlock_rec, unlock_row};
use crate::moving::{commit, cut_source, rebase};
use crate::owning::{clear, drop_rec, settle, take_back};
use crate::primitives::{delete, insert, put_dir, swap};
use crate::reads::{list, look, names, read, up};
use crate::removing::{mark, remove};
use next_contents::Contents;
use next_ids::{NoMemory, Stamp};
use next_steps::{Answer, Ask, RowLock};
use std::alloc::Global;

/// The line of the table that the ask meets at the stamp, which is of the shard, and the moment. The Err is want of memory
/// for the names, notes, rows and strays of the line.
pub fn line_of(
    alloc: Global,
    contents: &Contents,
    at: Stamp,
    moment: u64,
    ask: &Ask,
) -> Result<Line, NoMemory>
    requires number { at.number < 1099511627777 }
    requires own { at.place ≡ place_of contents.now }
    requires folds { (d : ℕ) (r : DirRec) → map.get (contents_of contents.now).recs d ≡ Some r → CanFold r.base r.pending }
    ensures line { IfOk result (λ line. served_by at (contents_of contents.now) line ≡ serve_shard (contents_of contents.now) at moment ask.now) }
    ensures fit { IfOk result (λ line. IsFit (contents_of contents.now) line.change) }
{
    match ask {
        Ask::Read { dir, name } => Ok(Line::quiet(read(contents, *dir, name))),
        Ask::List { dir } => Ok(Line::quiet(list(contents, *dir)?)),
        Ask::Look { dir, back } => Ok(Line::quiet(look(contents, *dir, back)?)),
        Ask::PutDir {
            client,
            dir,
            name,
            ..
        } => put_dir(alloc, at, moment, *client, *dir, name),
        Ask::Insert {
            client,
            dir,
            name,
            node,
            ts,
        } => insert(contents, *client, *dir, name, *node, *ts),
        Ask::Delete {
            client,
            dir,
            name,
            ts,
        } => delete(contents, *client, *dir, name, *ts),
        Ask::Swap {
            client,
            dir,
            name,
            to_name,
            ts,
        } => swap(contents, *client, *dir, name, to_name, *ts),
        Ask::Mark {
            client,
            child,
            dir,
            name,
            ts,
        } => mark(contents, *client, *child, *dir, name, *ts),
        Ask::Remove { note } => remove(contents, note),
        Ask::Settle { node } => Ok(settle(contents, *node)),
        Ask::TakeBack { client, node } => Ok(take_back(contents, *client, *node)),
        Ask::DropOwed { client, node } => Ok(take_back(contents, *client, *node)),
        Ask::DropRec { dir } => Ok(drop_rec(contents, *dir)),
        Ask::Clear { node, .. } => Ok(clear(contents, *node)),
        Ask::Merge { .. } => Ok(Line::done(Change::Merge)),
        Ask::LockRec {
            job,
            child,
            dir,
            name,
            kind,
        } => lock_rec(contents, *job, *child, *dir, name, *kind),
        Ask::LockRow {
            job,
            dir,
            name,
            side,
            want,
            reserves,
        } => {
            let lock = RowLock {
                job: *job,
                side: *side,
                reserves: *reserves,
            };
            lock_row(contents, *dir, name, lock, *want)
        }
        Ask::Commit {
            job,
            client,
            dir,
            name,
            to_dir,
            to_name,
            node,
            ts,
        } => commit(
            contents,
            *job,
            *client,
            (*dir, name),
            (*to_dir, to_name),
            *node,
            *ts,
        ),
        Ask::CutSource { job, dir, name, ts } => cut_source(contents, *job, *dir, name, *ts),
        Ask::Rebase {
            job,
            child,
            dir,
            name,
        } => rebase(contents, *job, *child, *dir, name),
        Ask::UnlockRow { job, dir, name } => unlock_row(contents, *job, *dir, name),
        Ask::UnlockRec { job, child } => Ok(unlock_rec(contents, *job, *child)),
        Ask::Up { dir } => Ok(Line::quiet(up(contents, *dir))),
        Ask::Strays { clients, .. } => Ok(Line::quiet(Answer::Strays(contents.strays(clients)?))),
        Ask::Names { dir, node } => Ok(Line::quiet(names(contents, *dir, *node))),
        Ask::Put { .. } | Ask::Get { .. } | Ask::SetSize { .. } | Ask::Drop { .. } => Ok(
            Line::quiet(Answer::None),
        ),
        Ask::Submit { .. } | Ask::TakeJob | Ask::Reply { .. } | Ask::Collect { .. } => Ok(
            Line::quiet(Answer::None),
        ),
        Ask::Stop { .. } | Ask::End { .. } | Ask::Stopped => Ok(Line::quiet(Answer::None)),
    }
}
