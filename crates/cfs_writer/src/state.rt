//! Where a writing call is.
use cfs_ids::{Call, DirId, Errno, Name, Node, Stamp, Ts};
use cfs_steps::CallDone;

/// What a create or mkdir makes: the name that it is to stand at, and the node that it has put; its first step.
#[derive(Debug, Drop)]
pub struct Creation {
    pub dir: DirId,
    pub name: Name,
    pub node: Node,
    pub first: Stamp,
}

/// A create or mkdir has put its node, then sets its row, and settles the node where the row stands or else takes it
/// back.
#[derive(Debug, Drop)]
pub enum WriterState {
    Asking(Call),
    Inserting {
        creation: Creation,
        ts: Ts,
    },
    Settling {
        creation: Creation,
        ts: Ts,
        at: Stamp,
    },
    TakingBack {
        creation: Creation,
        errno: Errno,
        at: Stamp,
    },
    Finished(CallDone),
}
