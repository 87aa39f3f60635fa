//! The line on standard error.
ghost use Rattle.std.specs.Prelude.{◌≡◌};
ghost use Rattle.cfs.specs.Faults.{fault_of};

use cfs_run::Status;
use cfs_script::Fault as ScriptFault;
use thiserror::Error;

/// Why the program does not end with status 0, in one line.
#[derive(Debug, Drop, Error)]
pub enum Fault {
    /// The word of this index, counted from 0, is not expected.
    #[error("cfs: word {word} is not expected")]
    Usage { word: usize },
    /// This line of the script, counted from 1, is the first that has a fault.
    #[error("cfs: line {line}: {fault:?}")]
    Script { line: u64, fault: ScriptFault },
    /// Reading standard input failed.
    #[error("cfs: reading failed")]
    Read,
    /// Writing standard output failed.
    #[error("cfs: writing failed")]
    Write,
    /// There was not enough memory.
    #[error("cfs: no memory")]
    NoMemory,
    /// The log of the place of this number has no room for the next step.
    #[error("cfs: the log of place {place} is full")]
    LogFull { place: u32 },
}

impl Fault {
    /// The fault of a status, and none where all was written.
    pub fn of(status: Status) -> Option<Fault>
        ensures { result ≡ fault_of status }
    {
        match status {
            Status::Done | Status::No { .. } => None,
            Status::Usage { word } => Some(Fault::Usage { word }),
            Status::Script { line, fault } => Some(Fault::Script { line, fault }),
            Status::ReadFault => Some(Fault::Read),
            Status::WriteFault => Some(Fault::Write),
            Status::NoMemory => Some(Fault::NoMemory),
            Status::LogFull { place } => Some(Fault::LogFull { place: place.0 }),
        }
    }
}
