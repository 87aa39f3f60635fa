//! The clients of a script at their start.
ghost use Rattle.std.specs.Prelude.{◌≡◌, IfOk, IsTrue, true};
ghost use Rattle.std.specs.List.{list_all};
ghost use Rattle.cfs_rules.specs.Worlds.{AreCounts, starts};
ghost use Rattle.cfs_setup.specs.Built.{is_built, are_built};
ghost use Rattle.cfs_actor.specs.Clients.{client_of, counts_of, progress_of};
ghost use Rattle.cfs_actor.specs.Plans.{plan_of};
ghost use Rattle.cfs_core.specs.Clients.{works_with};
ghost use Rattle.cfs_core.specs.Opening.{StartsAs, tries};

use cfs_actor::{ClientState, CommandQueue};
use cfs_ids::{Client, NoMemory};
use cfs_walk::{Command, CommandList};
use std::alloc::Global;

/// How often a call that is answered Busy is made in all.
pub const TRIES: u32 = 1;

// These commands, in order.
fn queue_of(alloc: Global, commands: &[Command]) -> Result<CommandQueue, NoMemory>
    ensures { IfOk result (λ queue. queue ≡ commands.now) }
{
    let mut queue = CommandQueue::new(alloc);
    for command in commands {
        queue.push(command.copy()?)?;
    }
    Ok(queue)
}

// A client at its start, which works with so many shards and stores.
fn state_of(
    alloc: Global,
    client: Client,
    commands: &CommandList,
    shards: u32,
    stores: u32,
) -> Result<ClientState, NoMemory>
    requires counts { AreCounts (record { shards = shards; stores = stores }) }
    requires built { IsTrue (list_all is_built commands.now) }
    ensures client { IfOk result (λ state. client_of state ≡ client) }
    ensures progress { IfOk result (λ state. progress_of state ≡ starts (plan_of tries commands.now)) }
    ensures counts { IfOk result (λ state. counts_of state ≡ record { shards = shards; stores = stores }) }
{
    let queue = queue_of(alloc, commands.as_slice())?;
    Ok(ClientState::new(alloc, client, queue, TRIES, shards, stores))
}

/// The clients of these lists at their start.
pub fn states_of(
    alloc: Global,
    lists: &[(Client, CommandList)],
    shards: u32,
    stores: u32,
) -> Result<Vec<ClientState>, NoMemory>
    requires counts { AreCounts (record { shards = shards; stores = stores }) }
    requires built { IsTrue (list_all are_built lists.now) }
    ensures starts { IfOk result (λ states. StartsAs states.items lists.now) }
    ensures alike { IfOk result (λ states. list_all (works_with (record { shards = shards; stores = stores })) states.items ≡ true) }
{
    let mut states = Vec::new(alloc);
    for list in lists {
        states.push(state_of(alloc, list.0, &list.1, shards, stores)?)?;
    }
    Ok(states)
}
