//! What a run is given: its places, the commands of each client, which clients stop, and whose turn it is.
#![tactic(auto)]

mod commands;
mod lists;
mod script;
mod stops;
mod turns;

pub use commands::built;
pub use lists::CommandLists;
pub use script::Script;
pub use stops::StopList;
pub use turns::TurnList;
