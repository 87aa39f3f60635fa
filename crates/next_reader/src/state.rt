//! Where a reading call is.
ghost use Rattle.std.specs.Prelude.{◌≡◌, IfOk};
ghost use Rattle.next_ids.specs.declared.call.Call.TheVariants.{Stat as StatCall};

use next_ids::{Call, DirId, FileId, MarkNote, Name, NoMemory, Stamp, Ts};
use next_steps::CallDone;

/// A call that reads.
#[derive(Drop)]
pub enum Reading {
    Lookup { dir: DirId, name: Name },
    List { dir: DirId },
    StatRoot,
    Stat { dir: DirId, name: Name },
}

/// A stat that has made a step: its name, and its first step.
#[derive(Drop)]
pub struct Stat {
    pub dir: DirId,
    pub name: Name,
    pub first: Stamp,
}

/// A stat whose row, set at the step `row`, names a file.
#[derive(Drop)]
pub struct FileStat {
    pub stat: Stat,
    pub file: FileId,
    pub row: Stamp,
}

/// A look-up has one step. A list or a stat of the root goes on where its first step did not tell the reply. A stat
/// reads its row, then the record of the row's node, and where that is a file the row once more.
#[derive(Drop)]
pub enum ReaderState {
    Asking(Reading),
    /// A list that found its directory marked.
    ListHelping {
        dir: DirId,
        note: MarkNote,
        first: Stamp,
    },
    /// A stat of the root that was told nothing.
    RootLooking {
        first: Stamp,
    },
    /// A stat that reads its row again.
    StatReading(Stat),
    /// The row names a directory.
    StatLooking {
        stat: Stat,
        child: DirId,
    },
    /// The directory is marked.
    StatHelping {
        stat: Stat,
        note: MarkNote,
    },
    /// The row names a file.
    StatGetting(FileStat),
    /// The store told the size and the time, or that there is no file, at the step `got`.
    StatChecking {
        file: FileStat,
        found: Option<(u64, Ts)>,
        got: Stamp,
    },
    Finished(CallDone),
}

impl Stat {
    /// A copy.
    pub fn copy(&self) -> Result<Stat, NoMemory>
        ensures { IfOk result (λ copy. copy ≡ self.now) }
    {
        Ok(Stat {
            dir: self.dir,
            name: self.name.copy()?,
            first: self.first,
        })
    }

    /// The call.
    pub fn call(&self) -> Result<Call, NoMemory>
        ensures { IfOk result (λ call. call ≡ StatCall self.now.dir self.now.name) }
    {
        Ok(Call::Stat {
            dir: self.dir,
            name: self.name.copy()?,
        })
    }

    /// The call, where no more is done with it.
    pub fn into_call(self) -> Call
        ensures { result ≡ StatCall self.dir self.name }
    {
        Call::Stat {
            dir: self.dir,
            name: self.name,
        }
    }
}

impl FileStat {
    /// A copy.
    pub fn copy(&self) -> Result<FileStat, NoMemory>
        ensures { IfOk result (λ copy. copy ≡ self.now) }
    {
        Ok(FileStat {
            stat: self.stat.copy()?,
            file: self.file,
            row: self.row,
        })
    }
}
