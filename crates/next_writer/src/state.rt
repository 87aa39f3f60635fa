//! Where a writing call is.
use crate::calls::{Making, Renaming, Taking, Writing};
use next_ids::{At, JobNo, MarkNote, Reply, Stamp, Ts};
use next_steps::CallDone;

/// A create or mkdir puts its node, sets its row, and settles the node where the row stands or else takes it back. An
/// unlink or rename takes a name, and drops the file that lost it. A rename that no shard makes alone goes to the
/// Renamer. A truncate has one step.
#[derive(Drop)]
pub enum WriterState {
    Asking(Writing),
    /// A create or mkdir has put its node.
    Inserting {
        making: Making,
        ts: Ts,
    },
    /// It has set its row at the step `at`.
    Settling {
        making: Making,
        ts: Ts,
        at: Stamp,
    },
    /// It found its directory marked.
    MakeHelping {
        making: Making,
        note: MarkNote,
    },
    /// Its reply stands.
    TakingBack {
        making: Making,
        reply: Reply,
        at: At,
    },
    /// An unlink or rename has taken the name of a file.
    Dropping(Taking),
    /// It has dropped the file.
    Clearing(Taking),
    /// A rename goes to the Renamer.
    Submitting(Renaming),
    /// It is there as a job.
    Collecting {
        renaming: Renaming,
        job: JobNo,
    },
    Finished(CallDone),
}
