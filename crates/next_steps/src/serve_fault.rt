//! Why an ask is not served.
ghost use Rattle.std.specs.Prelude.{◌≡◌};
ghost use Rattle.next_steps.specs.declared.serve_fault.ServeFault.TheVariants.{NoMemory as TheNoMemory};

use next_ids::NoMemory;
use std::alloc::AllocError;

/// Why an ask was not served. The place is as before.
#[derive(Clone, Copy, Debug, PartialEq, Eq)]
pub enum ServeFault {
    NoMemory,
    /// The log has its greatest length, or a last number its greatest value.
    LogFull,
    /// No job waits, or the job has no answer.
    NotYet,
}

impl From<AllocError> for ServeFault {
    ghost from_gives = { λ _ fault. fault ≡ TheNoMemory };

    fn from(_: AllocError) -> ServeFault {
        ServeFault::NoMemory
    }
}

impl From<NoMemory> for ServeFault {
    ghost from_gives = { λ _ fault. fault ≡ TheNoMemory };

    fn from(_: NoMemory) -> ServeFault {
        ServeFault::NoMemory
    }
}
