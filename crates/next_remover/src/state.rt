//! Where a rmdir is.
ghost use Rattle.std.specs.Prelude.{◌≡◌, IfOk};
ghost use Rattle.next_ids.specs.declared.call.Call.TheVariants.{Rmdir};

use next_ids::{Call, DirId, MarkNote, Name, NoMemory, Stamp, Ts};
use next_steps::CallDone;

/// A rmdir that has made a step: its name, and its first step.
#[derive(Drop)]
pub struct Removal {
    pub dir: DirId,
    pub name: Name,
    pub first: Stamp,
}

/// A rmdir whose row was cut at the step `at`: the directory that the row named, and the time.
#[derive(Drop)]
pub struct Cut {
    pub removal: Removal,
    pub child: DirId,
    pub ts: Ts,
    pub at: Stamp,
}

/// A rmdir reads its row, marks the empty directory, cuts the row, and drops the record. It has a time from its first
/// mark on.
#[derive(Drop)]
pub enum RemoverState {
    Asking {
        dir: DirId,
        name: Name,
    },
    /// It reads the row again.
    RowReading {
        removal: Removal,
        ts: Option<Ts>,
    },
    /// The row names the directory `child`.
    Marking {
        removal: Removal,
        child: DirId,
        ts: Option<Ts>,
    },
    /// The directory has the mark of another.
    MarkHelping {
        removal: Removal,
        note: MarkNote,
        ts: Ts,
    },
    /// The directory has the mark of this call.
    Removing {
        removal: Removal,
        child: DirId,
        ts: Ts,
    },
    /// The row was cut.
    RecDropping(Cut),
    /// The record was dropped.
    RecClearing(Cut),
    Finished(CallDone),
}

impl Removal {
    /// A copy.
    pub fn copy(&self) -> Result<Removal, NoMemory>
        ensures { IfOk result (λ copy. copy ≡ self.now) }
    {
        Ok(Removal {
            dir: self.dir,
            name: self.name.copy()?,
            first: self.first,
        })
    }

    /// The call.
    pub fn call(&self) -> Result<Call, NoMemory>
        ensures { IfOk result (λ call. call ≡ Rmdir self.now.dir self.now.name) }
    {
        Ok(Call::Rmdir {
            dir: self.dir,
            name: self.name.copy()?,
        })
    }

    /// The call, where no more is done with it.
    pub fn into_call(self) -> Call
        ensures { result ≡ Rmdir self.dir self.name }
    {
        Call::Rmdir {
            dir: self.dir,
            name: self.name,
        }
    }
}

impl Cut {
    /// A copy.
    pub fn copy(&self) -> Result<Cut, NoMemory>
        ensures { IfOk result (λ copy. copy ≡ self.now) }
    {
        Ok(Cut {
            removal: self.removal.copy()?,
            child: self.child,
            ts: self.ts,
            at: self.at,
        })
    }
}
