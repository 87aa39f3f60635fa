//! How what a shard holds changes.
ghost use Rattle.std.specs.Prelude.{◌≡◌, ℕ, List, Some, None, IfOk, OnOk, OnErr, IsSome, IsOk};
ghost use Rattle.std.specs.FinMap as map;
ghost use Rattle.next_ids.specs.declared.ids.Node.{Node};
ghost use Rattle.next_ids.specs.declared.time.Ts.{Ts};
ghost use Rattle.next_ids.specs.Attributes.{CanFold};
ghost use Rattle.next_ids.specs.Maps.{row_key};
ghost use Rattle.next_steps.specs.declared.contents.DirRec.{DirRec};
ghost use Rattle.next_rules.specs.Contents.{debt_key};
ghost use Rattle.next_rules.specs.Changes.{set_row, cut_row, set_rec, cut_rec, delta_of, update, set_lock, end_lock, leave_debt, end_debt};
ghost use Rattle.next_rules.specs.Owning.{merge};
ghost use Rattle.next_table.specs.Records.{change_rec, with_delta, without_owner, with_mark, with_lock, without_lock, named_at};
ghost use Rattle.next_contents.specs.Shown.{contents_of, place_of};

use crate::contents::Contents;
use next_ids::{Delta, DirId, JobNo, Kind, MarkNote, Name, NoMemory, Node, Stamp};
use next_steps::{Debt, DirRec, Row, RowLock};

impl Contents {
    /// Sets the row at a name of the directory, and answers what stood there. The Err is want of memory for a new row:
    /// nothing has changed.
    pub fn set_row(
        &mut self,
        dir: DirId,
        name: Name,
        node: Node,
        at: Stamp,
    ) -> Result<Option<Row>, NoMemory>
        ensures ok { OnOk result (contents_of self.new ≡ set_row (contents_of self.old) dir name node at) }
        ensures place { place_of self.new ≡ place_of self.old }
        ensures before { IfOk result (λ before. before ≡ map.get (contents_of self.old).rows (row_key dir name)) }
        ensures err { OnErr result (self.new ≡ self.old) }
        ensures there { IsSome (map.get (contents_of self.old).rows (row_key dir name)) → IsOk result }
    {
        self.table.set_row(dir, name, node, at)
    }

    /// Takes the row at a name of the directory out, and answers what stood there. None comes exactly where there was
    /// none.
    pub fn cut_row(&mut self, dir: DirId, name: &Name) -> Option<Row>
        ensures contents { contents_of self.new ≡ cut_row (contents_of self.old) dir name.now }
        ensures place { place_of self.new ≡ place_of self.old }
        ensures before { result ≡ map.get (contents_of self.old).rows (row_key dir name.now) }
    {
        self.table.cut_row(dir, name)
    }

    /// Sets the record of the directory, and answers what stood there. The Err is want of memory for a new record:
    /// nothing has changed.
    pub fn set_rec(&mut self, dir: DirId, rec: DirRec) -> Result<Option<DirRec>, NoMemory>
        ensures ok { OnOk result (contents_of self.new ≡ set_rec (contents_of self.old) dir rec) }
        ensures place { place_of self.new ≡ place_of self.old }
        ensures before { IfOk result (λ before. before ≡ map.get (contents_of self.old).recs dir.0) }
        ensures err { OnErr result (self.new ≡ self.old) }
        ensures there { IsSome (map.get (contents_of self.old).recs dir.0) → IsOk result }
    {
        self.table.set_rec(dir, rec)
    }

    /// Takes the record of the directory out, and answers what stood there. None comes exactly where there was none.
    pub fn cut_rec(&mut self, dir: DirId) -> Option<DirRec>
        ensures contents { contents_of self.new ≡ cut_rec (contents_of self.old) dir }
        ensures place { place_of self.new ≡ place_of self.old }
        ensures before { result ≡ map.get (contents_of self.old).recs dir.0 }
    {
        self.table.cut_rec(dir)
    }

    /// Leaves a change of a directory's attributes pending. Where the directory has no record, nothing changes. The Err
    /// is want of memory: nothing has changed.
    pub fn push_delta(&mut self, dir: DirId, delta: Delta) -> Result<(), NoMemory>
        ensures ok { OnOk result (contents_of self.new ≡ change_rec (contents_of self.old) dir (with_delta delta)) }
        // so a change by rows that come and go is the one update of a step
        ensures update { (come gone : List Node) (ts : Ts) → delta ≡ delta_of come gone ts → OnOk result (contents_of self.new ≡ update (contents_of self.old) dir come gone ts (map.get (contents_of self.old).recs dir.0)) }
        ensures place { place_of self.new ≡ place_of self.old }
        ensures err { OnErr result (self.new ≡ self.old) }
        ensures none { map.get (contents_of self.old).recs dir.0 ≡ None → IsOk result }
    {
        self.table.push_delta(dir, delta)
    }

    /// Ends the ownership of a directory's record. Where there is no record, nothing changes.
    pub fn settle(&mut self, dir: DirId)
        ensures contents { contents_of self.new ≡ change_rec (contents_of self.old) dir without_owner }
        ensures place { place_of self.new ≡ place_of self.old }
    {
        self.table.settle(dir);
    }

    /// Marks the directory that the note is of. Where there is no record, nothing changes.
    pub fn mark(&mut self, note: MarkNote)
        ensures contents { contents_of self.new ≡ change_rec (contents_of self.old) note.child (with_mark note) }
        ensures place { place_of self.new ≡ place_of self.old }
    {
        self.table.mark(note);
    }

    /// Locks a directory's record for a job, and ends its ownership. Where there is no record, nothing changes.
    pub fn lock_rec(&mut self, child: DirId, job: JobNo, kind: Kind)
        ensures contents { contents_of self.new ≡ change_rec (contents_of self.old) child (with_lock job kind) }
        ensures place { place_of self.new ≡ place_of self.old }
    {
        self.table.lock_rec(child, job, kind);
    }

    /// Ends the lock of a directory's record. Where there is no record, nothing changes.
    pub fn unlock_rec(&mut self, child: DirId)
        ensures contents { contents_of self.new ≡ change_rec (contents_of self.old) child without_lock }
        ensures place { place_of self.new ≡ place_of self.old }
    {
        self.table.unlock_rec(child);
    }

    /// Sets where a directory is named, and ends the lock of its record. Where there is no record, nothing changes.
    pub fn rebase(&mut self, child: DirId, back: (DirId, Name))
        ensures contents { contents_of self.new ≡ change_rec (contents_of self.old) child (named_at back) }
        ensures place { place_of self.new ≡ place_of self.old }
    {
        self.table.rebase(child, back);
    }

    /// Works the pending changes of each record that lies here into its base. It needs that those of each record can be
    /// folded, and takes no memory.
    pub fn merge(&mut self)
        requires { (d : ℕ) (r : DirRec) → map.get (contents_of self.old).recs d ≡ Some r → CanFold r.base r.pending }
        ensures contents { contents_of self.new ≡ (merge (contents_of self.old) (place_of self.old)).contents }
        ensures place { place_of self.new ≡ place_of self.old }
    {
        let place = self.place();
        self.table.merge(place);
    }

    /// Sets the lock on a name of the directory, and answers what stood there. The Err is want of memory for a new lock:
    /// nothing has changed.
    #[tactic(auto, using(crate::proofs::Locking::flattening))]
    pub fn set_lock(
        &mut self,
        dir: DirId,
        name: Name,
        lock: RowLock,
    ) -> Result<Option<RowLock>, NoMemory>
        ensures ok { OnOk result (contents_of self.new ≡ set_lock (contents_of self.old) dir name lock) }
        ensures place { place_of self.new ≡ place_of self.old }
        ensures before { IfOk result (λ before. before ≡ map.get (contents_of self.old).locks (row_key dir name)) }
        ensures err { OnErr result (self.new ≡ self.old) }
        ensures there { IsSome (map.get (contents_of self.old).locks (row_key dir name)) → IsOk result }
    {
        let Ok(before) = self.locks.set_name(self.alloc, dir.0, name, lock) else {
            return Err(NoMemory);
        };
        Ok(before)
    }

    /// Ends the lock on a name of the directory, and answers what stood there. None comes exactly where there was none.
    #[tactic(auto, using(crate::proofs::Locking::flattening))]
    pub fn end_lock(&mut self, dir: DirId, name: &Name) -> Option<RowLock>
        ensures contents { contents_of self.new ≡ end_lock (contents_of self.old) dir name.now }
        ensures place { place_of self.new ≡ place_of self.old }
        ensures before { result ≡ map.get (contents_of self.old).locks (row_key dir name.now) }
    {
        self.locks.cut_name(dir.0, name)
    }

    /// Sets the debt of the node here, and answers what stood there. The Err is want of memory for a new debt: nothing
    /// has changed.
    pub fn set_debt(&mut self, node: Node, debt: Debt) -> Result<Option<Debt>, NoMemory>
        ensures ok { OnOk result (contents_of self.new ≡ record (contents_of self.old) { debts = map.insert (contents_of self.old).debts (debt_key (place_of self.old) node) debt }) }
        // so a debt of a step here is left as the rules say
        ensures left { debt.stamp.place ≡ place_of self.old → OnOk result (contents_of self.new ≡ leave_debt (contents_of self.old) debt.owner debt.stamp node) }
        ensures place { place_of self.new ≡ place_of self.old }
        ensures before { IfOk result (λ before. before ≡ map.get (contents_of self.old).debts (debt_key (place_of self.old) node)) }
        ensures err { OnErr result (self.new ≡ self.old) }
        ensures there { IsSome (map.get (contents_of self.old).debts (debt_key (place_of self.old) node)) → IsOk result }
    {
        self.debts.set(node, debt)
    }

    /// Ends the debt of the node here, and answers what stood there. None comes exactly where there was none.
    pub fn end_debt(&mut self, node: Node) -> Option<Debt>
        ensures contents { contents_of self.new ≡ end_debt (contents_of self.old) (place_of self.old) node }
        ensures place { place_of self.new ≡ place_of self.old }
        ensures before { result ≡ map.get (contents_of self.old).debts (debt_key (place_of self.old) node) }
    {
        self.debts.cut(node)
    }
}
