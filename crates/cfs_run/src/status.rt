//! How a command ended.
ghost use Rattle.std.specs.Prelude.{◌≡◌};
ghost use Rattle.cfs_run.specs.Outcomes.{code_of};

use cfs_ids::PlaceNo;
use cfs_script::Fault;

/// How a command ended.
#[derive(Clone, Copy, Debug, PartialEq, Eq)]
pub enum Status {
    /// All was written.
    Done,
    /// This line, counted from 1, is the first at which an output is no legal history. No command that is built answers it.
    No { line: u64 },
    /// The index of the first word that is not expected, counted from 0.
    Usage { word: usize },
    /// The first line that breaks the script's form, counted from 1, and what is wrong with it.
    Script { line: u64, fault: Fault },
    /// The source failed.
    ReadFault,
    /// The sink failed, after it had taken a front of the text.
    WriteFault,
    /// No memory was left. Nothing was written.
    NoMemory,
    /// The log of this place has no room for the next step. Nothing was written. No command that is built answers it.
    LogFull { place: PlaceNo },
}

impl Status {
    /// The exit status.
    pub fn code(&self) -> u8
        ensures { result ≡ code_of self.now }
    {
        match self {
            Status::Done => 0,
            Status::No { .. } => 1,
            Status::Usage { .. } => 2,
            Status::Script { .. } => 3,
            Status::ReadFault => 4,
            Status::WriteFault => 5,
            Status::NoMemory => 6,
            Status::LogFull { .. } => 7,
        }
    }
}
