//! Where a reading call is.
use cfs_ids::Call;
use cfs_steps::CallDone;

/// A reading call has one step.
#[derive(Debug, Drop)]
pub enum ReaderState {
    Asking(Call),
    Finished(CallDone),
}
