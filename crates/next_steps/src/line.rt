//! The lines of a history.
use next_ids::{Call, Client, FileId, Node, Reply, Ts};

/// What a call came to.
#[derive(Debug, Drop)]
pub enum Outcome {
    /// It moved: the time of the move, and the node that it made.
    Moved { ts: Ts, made: Option<Node> },
    /// It was answered, and did not move.
    Reply(Reply),
    /// It has not ended; its move, where it has made one.
    Unfinished(Option<(Ts, Option<Node>)>),
}

/// One call of a client. `first` and `last` are the positions of its first and last own steps, `at` the position of
/// its move or the point of its reply: the reply p holds after all steps below p and before step p.
#[derive(Debug, Drop)]
pub struct Line {
    pub client: Client,
    pub call: Call,
    pub first: u64,
    pub at: Option<u64>,
    pub last: Option<u64>,
    pub outcome: Outcome,
}

/// An item of a history.
#[derive(Debug, Drop)]
pub enum HistoryItem {
    Line(Line),
    /// The step at this position forgot a file without a name.
    Forget { at: u64, file: FileId },
}
