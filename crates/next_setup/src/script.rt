//! A script.

use crate::lists::CommandLists;
use crate::stops::StopList;
use crate::turns::TurnList;

/// What a run is given: how many places of each kind there are, the commands of each client, which clients stop, and
/// whose turn it is.
#[derive(Debug, Drop)]
pub struct Script {
    /// The number of shards, 1 to 64.
    pub shards: u32,
    /// The number of stores, 1 to 64.
    pub stores: u32,
    pub commands: CommandLists,
    pub stops: StopList,
    pub turns: TurnList,
}
