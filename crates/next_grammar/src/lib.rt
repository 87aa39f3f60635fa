//! One line of a script: its words, and what they say.
#![tactic(auto)]

mod fault;
mod line;
mod numbers;
mod order;
mod paths;
mod turns;
mod verb;
mod words;

pub use fault::{Fault, Refusal};
pub use line::{Counts, LineKind, Stop, read_kind, read_places, read_stop};
pub use order::{Order, read_order};
pub use turns::{ListedActor, ListedTurns, read_turns};
pub use words::{cut_at, cut_word, is_comment};
