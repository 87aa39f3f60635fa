//! Which lock of a job an ask meets.
ghost use Rattle.std.specs.Prelude.{◌≡◌, Some};
ghost use Rattle.std.specs.Option.{option_copied};
ghost use Rattle.next_rules.specs.Locks.{job_of, source_job, other_job, holder, replacer, source_at, lock_at, list_lock, insert_lock, swap_lock, row_lock};
ghost use Rattle.next_contents.specs.Shown.{contents_of};

use next_contents::Contents;
use next_ids::{DirId, JobNo, Kind, Name, Side};
use next_steps::{DirRec, RowLock};

// The job of a lock on a name, whatever its side.
fn job_of(lock: Option<RowLock>) -> Option<JobNo>
    ensures { result ≡ job_of lock }
{
    match lock {
        Some(lock) => Some(lock.job),
        None => None,
    }
}

// The job of a lock on the name that the job gives up.
fn source_job(lock: Option<RowLock>) -> Option<JobNo>
    ensures { result ≡ source_job lock }
{
    let lock = lock?;
    match lock.side {
        Side::Source => Some(lock.job),
        Side::Target | Side::Committed => None,
    }
}

// A job other than one's own.
fn other_job(own: JobNo, job: Option<JobNo>) -> Option<JobNo>
    ensures { result ≡ other_job own job }
{
    match job {
        Some(job) if job.0 != own.0 => Some(job),
        _ => None,
    }
}

/// The job that has locked the record. None comes exactly where there is none.
pub fn holder(rec: &DirRec) -> Option<JobNo>
    ensures { result ≡ holder (Some rec.now) }
{
    match rec.lock {
        Some((job, _)) => Some(job),
        None => None,
    }
}

// The job that replaces the directory with this record.
fn replacer(rec: Option<&DirRec>) -> Option<JobNo>
    ensures { result ≡ replacer (option_copied rec.entry) }
{
    let (job, kind) = rec?.lock?;
    match kind {
        Kind::Moving => None,
        Kind::Replacing => Some(job),
    }
}

/// The job that gives the name up. None comes exactly where there is none.
pub fn source_at(contents: &Contents, dir: DirId, name: &Name) -> Option<JobNo>
    ensures { result ≡ source_at (contents_of contents.now) dir name.now }
{
    source_job(contents.lock(dir, name))
}

/// The job that has locked the name, for whatever it does there. None comes exactly where there is none.
pub fn lock_at(contents: &Contents, dir: DirId, name: &Name) -> Option<JobNo>
    ensures { result ≡ lock_at (contents_of contents.now) dir name.now }
{
    job_of(contents.lock(dir, name))
}

/// The job that a list of the directory meets. None comes exactly where there is none.
pub fn list_lock(contents: &Contents, dir: DirId) -> Option<JobNo>
    ensures { result ≡ list_lock (contents_of contents.now) dir }
{
    replacer(contents.rec(dir)).or(contents.source_in(dir))
}

/// The job that an insert at the name meets. None comes exactly where there is none.
pub fn insert_lock(contents: &Contents, dir: DirId, name: &Name) -> Option<JobNo>
    ensures { result ≡ insert_lock (contents_of contents.now) dir name.now }
{
    replacer(contents.rec(dir)).or(lock_at(contents, dir, name))
}

/// The job that a swap of the two names meets. None comes exactly where there is none.
pub fn swap_lock(contents: &Contents, dir: DirId, name: &Name, to_name: &Name) -> Option<JobNo>
    ensures { result ≡ swap_lock (contents_of contents.now) dir name.now to_name.now }
{
    lock_at(contents, dir, name).or(lock_at(contents, dir, to_name))
}

/// The job that another one meets where it locks the name. None comes exactly where there is none.
pub fn row_lock(own: JobNo, contents: &Contents, dir: DirId, name: &Name) -> Option<JobNo>
    ensures { result ≡ row_lock own (contents_of contents.now) dir name.now }
{
    let replacing = other_job(own, replacer(contents.rec(dir)));
    replacing.or(other_job(own, lock_at(contents, dir, name)))
}
