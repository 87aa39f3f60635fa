//! Whether a directory has room for one directory more.
ghost use Rattle.std.specs.Prelude.{◌≡◌, ◌+◌, ◌<◌, ◌≤◌, ◌^◌, ◌||◌, Some, None, length, if◌then◌else◌};
ghost use Rattle.std.specs.List.{filter};
ghost use Rattle.std.specs.Option.{option_copied, option_or};
ghost use Rattle.std.specs.FinMap as map;
ghost use Rattle.next_ids.specs.Attributes.{CanFold};
ghost use Rattle.next_steps.specs.declared.contents.DirRec.{DirRec};
ghost use Rattle.next_rules.specs.Room.{links_in, is_dir_row, may_leave, may_come, first_job, leaving_in, coming_in, deciding_job, room_of, room_in};
ghost use Rattle.next_table.specs.Tables.{contents_of as table_of};
ghost use Rattle.next_contents.specs.Rooms.{shown_room};
ghost use Rattle.next_contents.specs.Shown.{contents_of};

use crate::contents::Contents;
use next_ids::{DirId, JobNo, LINK_MAX, Name, Node, Side, fold};
use next_maps::NameMap;
use next_steps::{DirRec, Row, RowLock};
use next_table::Table;

/// The room of a directory for the row of one directory more.
#[derive(Clone, Copy)]
pub enum Room {
    HasRoom,
    /// It has none, whatever the jobs do that have locked names in it.
    IsFull,
    /// Whether it has depends on this job.
    DependsOn(JobNo),
}

// The directories that may leave and come by the locks of jobs, and the job of the least name among these locks.
#[derive(Clone, Copy)]
struct Pending {
    leaving: u64,
    coming: u64,
    job: Option<JobNo>,
}

// The links of a directory by its record.
fn links_in(rec: Option<&DirRec>) -> u64
    requires { (r : DirRec) → option_copied rec ≡ Some r → CanFold r.base r.pending }
    ensures links { result ≡ links_in (option_copied rec.entry) }
    ensures fits { result ≤ 2 ^ 62 + 2 }
{
    match rec {
        Some(rec) => 2 + fold(rec.base, rec.pending.as_slice()).subdirs,
        None => 2,
    }
}

// Whether the row names a directory.
fn is_dir_row(row: Option<&Row>) -> bool
    ensures { result ≡ is_dir_row (option_copied row.entry) }
{
    match row {
        Some(
            Row {
                node: Node::Dir(_),
                ..
            },
        ) => true,
        _ => false,
    }
}

// Whether a directory may leave under the lock on the name.
fn may_leave(table: &Table, dir: DirId, name: &Name, lock: RowLock) -> bool
    ensures { result ≡ may_leave (table_of table.now) dir (name.now, lock) }
{
    match lock.side {
        Side::Source => is_dir_row(table.row(dir, name)),
        Side::Target | Side::Committed => false,
    }
}

// One lock more is counted, under which a directory may leave or not.
fn with_lock(pending: Pending, leaves: bool, lock: RowLock) -> Pending
    requires leaving { pending.leaving < 2 ^ 63 }
    requires coming { pending.coming < 2 ^ 63 }
    ensures leaving { result.leaving ≡ pending.leaving + (if leaves then 1 else 0) }
    ensures coming { result.coming ≡ pending.coming + (if lock.reserves then 1 else 0) }
    ensures job { result.job ≡ option_or pending.job (if leaves || lock.reserves then Some lock.job else None) }
{
    let job = match pending.job {
        None if leaves || lock.reserves => Some(lock.job),
        job => job,
    };
    Pending {
        leaving: pending.leaving + u64::from(leaves),
        coming: pending.coming + u64::from(lock.reserves),
        job,
    }
}

// What the locks on the names of a directory leave open.
fn pending_in(table: &Table, dir: DirId, names: &NameMap<RowLock>) -> Pending
    ensures leaving { result.leaving ≡ length (filter (may_leave (table_of table.now) dir) (map.entries names.now)) }
    ensures coming { result.coming ≡ length (filter may_come (map.entries names.now)) }
    ensures job { result.job ≡ first_job (filter (λ e. may_leave (table_of table.now) dir e || may_come e) (map.entries names.now)) }
    ensures fits { result.coming < 2 ^ 63 }
{
    let mut pending = Pending {
        leaving: 0,
        coming: 0,
        job: None,
    };
    for (name, lock) in names.iter() {
        let leaves = may_leave(table, dir, name, *lock);
        pending = with_lock(pending, leaves, *lock);
    }
    pending
}

// The room of a directory with so many links.
fn room_of(links: u64, pending: Pending) -> Room
    requires links { links < 2 ^ 63 }
    requires coming { pending.coming < 2 ^ 63 }
    ensures { shown_room result ≡ room_of links pending.leaving pending.coming pending.job }
{
    if links.saturating_sub(pending.leaving) >= LINK_MAX {
        return Room::IsFull;
    }
    match pending.job {
        Some(job) if links + pending.coming >= LINK_MAX => Room::DependsOn(job),
        _ => Room::HasRoom,
    }
}

impl Contents {
    // What the locks on the names of a directory leave open.
    fn pending_in(&self, dir: DirId) -> Pending
        ensures leaving { result.leaving ≡ leaving_in (contents_of self.now) dir }
        ensures coming { result.coming ≡ coming_in (contents_of self.now) dir }
        ensures job { result.job ≡ deciding_job (contents_of self.now) dir }
        ensures fits { result.coming < 2 ^ 63 }
    {
        match self.locks.get(dir.0) {
            Some(names) => pending_in(&self.table, dir, names),
            None => Pending {
                leaving: 0,
                coming: 0,
                job: None,
            },
        }
    }

    /// The room of a directory for a row that names the node: a directory has at most as many links as `LINK_MAX`, and a
    /// file needs none. It needs that the pending changes of the directory's record can be folded.
    pub fn room_in(&self, dir: DirId, node: Node) -> Room
        requires { (r : DirRec) → map.get (contents_of self.now).recs dir.0 ≡ Some r → CanFold r.base r.pending }
        ensures { shown_room result ≡ room_in (contents_of self.now) dir node }
    {
        match node {
            Node::File(_) => Room::HasRoom,
            Node::Dir(_) => room_of(links_in(self.table.rec(dir)), self.pending_in(dir)),
        }
    }
}
