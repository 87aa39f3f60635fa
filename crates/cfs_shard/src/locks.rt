//! Which lock of a job an ask meets.
ghost use Rattle.std.specs.Prelude.{◌≡◌};
ghost use Rattle.std.specs.Option.{option_copied};
ghost use Rattle.std.specs.FinMap as map;
ghost use Rattle.cfs_ids.specs.Maps.{row_key};
ghost use Rattle.cfs_table.specs.Flat.{flat};
ghost use Rattle.cfs_table.specs.Tables.{contents_of};
ghost use Rattle.cfs_rules.specs.Locks.{job_of, source_job, locks_in, first_source, replacing_job, met_in, lock_met};

use cfs_ids::{DirId, JobNo, Kind, Name, Side};
use cfs_maps::{NameMap, NumberMap};
use cfs_steps::{Ask, RowLock};
use cfs_table::{DirRec, Table};

// The lock on a name of the directory.
#[tactic(auto, using(crate::proofs::Locking::flattening))]
fn lock_at(locks: &NumberMap<NameMap<RowLock>>, dir: DirId, name: &Name) -> Option<RowLock>
    ensures { result ≡ map.get (flat locks.now) (row_key dir name.now) }
{
    match locks.get(dir.0) {
        Some(names) => names.get(name).copied(),
        None => None,
    }
}

// The job of a lock on a name, whatever its side.
fn job_of(lock: Option<RowLock>) -> Option<JobNo>
    ensures { result ≡ job_of lock }
{
    match lock {
        Some(lock) => Some(lock.job),
        None => None,
    }
}

// The job of a lock on a name that the job gives up.
fn source_job(lock: Option<RowLock>) -> Option<JobNo>
    ensures { result ≡ source_job lock }
{
    let lock = lock?;
    match lock.side {
        Side::Source => Some(lock.job),
        Side::Target | Side::Committed => None,
    }
}

// The first job that gives up one of the names.
fn first_source(names: &NameMap<RowLock>) -> Option<JobNo>
    ensures { result ≡ first_source (map.entries names.now) }
{
    for (_, lock) in names.iter() {
        let job = source_job(Some(*lock));
        if job.is_some() {
            return job;
        }
    }
    None
}

// The first job that gives up a name of the directory.
fn first_source_in(locks: &NumberMap<NameMap<RowLock>>, dir: DirId) -> Option<JobNo>
    ensures { result ≡ first_source (map.entries (locks_in (flat locks.now) dir.0)) }
{
    match locks.get(dir.0) {
        Some(names) => first_source(names),
        None => None,
    }
}

// The job that replaces the directory.
fn replacing_job(lock: Option<(JobNo, Kind)>) -> Option<JobNo>
    ensures { result ≡ replacing_job lock }
{
    let (job, kind) = lock?;
    match kind {
        Kind::Moving => None,
        Kind::Replacing => Some(job),
    }
}

// The job that an ask meets in the directory with this record, where `job` is the one that it meets at the names.
fn met_in(rec: Option<&DirRec>, job: Option<JobNo>) -> Option<JobNo>
    ensures { result ≡ met_in (option_copied rec.entry) job }
{
    let rec = rec?;
    match replacing_job(rec.lock) {
        Some(replacing) => Some(replacing),
        None => job,
    }
}

/// The job whose lock stands in the way of the ask. None comes exactly where there is none.
pub fn met(locks: &NumberMap<NameMap<RowLock>>, table: &Table, ask: &Ask) -> Option<JobNo>
    ensures { result ≡ lock_met (flat locks.now) (contents_of table.now).recs ask.now }
{
    match ask {
        Ask::Read { dir, name } => source_job(lock_at(locks, *dir, name)),
        Ask::List { dir } => met_in(table.rec(*dir), first_source_in(locks, *dir)),
        Ask::Insert { dir, name, .. } => {
            met_in(table.rec(*dir), job_of(lock_at(locks, *dir, name)))
        }
        _ => None,
    }
}
