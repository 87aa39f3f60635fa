//! The locks of jobs on the names of one directory.
ghost use Rattle.std.specs.Prelude.{◌≡◌, Some};
ghost use Rattle.std.specs.FinMap as map;
ghost use Rattle.next_rules.specs.Locks.{source_job, other_job, first_source, first_other};
ghost use Rattle.next_rules.specs.Room.{first_job};

use next_ids::{JobNo, Side};
use next_maps::NameMap;
use next_steps::RowLock;

// The job of a lock on the name that the job gives up.
fn source_job(lock: RowLock) -> Option<JobNo>
    ensures { result ≡ source_job (Some lock) }
{
    match lock.side {
        Side::Source => Some(lock.job),
        Side::Target | Side::Committed => None,
    }
}

// A job other than one's own.
fn other_job(own: JobNo, job: JobNo) -> Option<JobNo>
    ensures { result ≡ other_job own (Some job) }
{
    if job.0 == own.0 { None } else { Some(job) }
}

/// The job of the least name that is given up. None comes exactly where there is none.
pub fn first_source(names: &NameMap<RowLock>) -> Option<JobNo>
    ensures { result ≡ first_source (map.entries names.now) }
{
    for (_, lock) in names.iter() {
        let job = source_job(*lock);
        if job.is_some() {
            return job;
        }
    }
    None
}

/// The job of the least name. None comes exactly where there is none.
pub fn first_job(names: &NameMap<RowLock>) -> Option<JobNo>
    ensures { result ≡ first_job (map.entries names.now) }
{
    match names.next(None) {
        Some((_, lock)) => Some(lock.job),
        None => None,
    }
}

/// The job of the least name that has another job's lock. None comes exactly where there is none.
pub fn first_other(own: JobNo, names: &NameMap<RowLock>) -> Option<JobNo>
    ensures { result ≡ first_other own (map.entries names.now) }
{
    for (_, lock) in names.iter() {
        let job = other_job(own, lock.job);
        if job.is_some() {
            return job;
        }
    }
    None
}
