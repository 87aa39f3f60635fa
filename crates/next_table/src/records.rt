//! The changes of records in place. None of them copies a record, and where there is no record nothing changes.
ghost use Rattle.std.specs.Prelude.{◌≡◌, OnOk, OnErr, IsOk, None};
ghost use Rattle.std.specs.FinMap as map;
ghost use Rattle.next_table.specs.Records.{change_rec, with_delta, without_owner, with_mark, with_lock, without_lock, named_at};
ghost use Rattle.next_table.specs.Tables.{contents_of};

use crate::table::Table;
use next_ids::{Delta, DirId, JobNo, Kind, MarkNote, Name, NoMemory};

impl Table {
    /// Leaves a change of a directory's attributes pending. The Err is want of memory: the table is as before.
    pub fn push_delta(&mut self, dir: DirId, delta: Delta) -> Result<(), NoMemory>
        ensures ok { OnOk result (contents_of self.new ≡ change_rec (contents_of self.old) dir (with_delta delta)) }
        ensures err { OnErr result (self.new ≡ self.old) }
        ensures none { map.get (contents_of self.old).recs dir.0 ≡ None → IsOk result }
    {
        let Some(rec) = self.recs.get_mut(dir.0) else {
            return Ok(());
        };
        match rec.pending.push(delta) {
            Ok(()) => Ok(()),
            Err(_) => Err(NoMemory),
        }
    }

    /// Ends the ownership of a directory's record.
    pub fn settle(&mut self, dir: DirId)
        ensures { contents_of self.new ≡ change_rec (contents_of self.old) dir without_owner }
    {
        if let Some(rec) = self.recs.get_mut(dir.0) {
            rec.owner = None;
        }
    }

    /// Marks the directory that the note is of.
    pub fn mark(&mut self, note: MarkNote)
        ensures { contents_of self.new ≡ change_rec (contents_of self.old) note.child (with_mark note) }
    {
        if let Some(rec) = self.recs.get_mut(note.child.0) {
            rec.mark = Some(note);
        }
    }

    /// Locks a directory's record for a job, and ends its ownership.
    pub fn lock_rec(&mut self, child: DirId, job: JobNo, kind: Kind)
        ensures { contents_of self.new ≡ change_rec (contents_of self.old) child (with_lock job kind) }
    {
        if let Some(rec) = self.recs.get_mut(child.0) {
            rec.lock = Some((job, kind));
            rec.owner = None;
        }
    }

    /// Ends the lock of a directory's record.
    pub fn unlock_rec(&mut self, child: DirId)
        ensures { contents_of self.new ≡ change_rec (contents_of self.old) child without_lock }
    {
        if let Some(rec) = self.recs.get_mut(child.0) {
            rec.lock = None;
        }
    }

    /// Sets where a directory is named, and ends the lock of its record.
    pub fn rebase(&mut self, child: DirId, back: (DirId, Name))
        ensures { contents_of self.new ≡ change_rec (contents_of self.old) child (named_at back) }
    {
        if let Some(rec) = self.recs.get_mut(child.0) {
            rec.back = Some(back);
            rec.lock = None;
        }
    }
}
