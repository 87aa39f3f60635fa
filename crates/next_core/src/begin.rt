//! The actors of a script at their start.
ghost use Rattle.std.specs.Prelude.{◌≡◌, ◌≤◌, ℕ, IfOk, IsTrue, true, map};
ghost use Rattle.std.specs.List.{list_all};
ghost use Rattle.next_rules.specs.Actors.{starts};
ghost use Rattle.next_rules.specs.Setups.{AreCounts};
ghost use Rattle.next_setup.specs.Stops.{stop_in};
ghost use Rattle.next_walk.specs.Commands.{is_in_form};
ghost use Rattle.next_actor.specs.Clients.{client_of, counts_of, progress_of};
ghost use Rattle.next_actor.specs.Plans.{plan_of};
ghost use Rattle.next_core.specs.Casts.{standings};
ghost use Rattle.next_core.specs.Opening.{are_in_form, opening_cast};

use next_actor::{ActorState, ClientState, CommandQueue, JobState, RoundState};
use next_ids::{Client, Counts, NoMemory};
use next_setup::StopList;
use next_walk::{Command, CommandList};
use std::alloc::Global;

// These commands, in order.
fn queue_of(alloc: Global, commands: &[Command]) -> Result<CommandQueue, NoMemory>
    ensures { IfOk result (λ queue. queue ≡ commands.now) }
{
    let mut queue = CommandQueue::new(alloc);
    for command in commands {
        queue.push(command.copy()?)?;
    }
    Ok(queue)
}

// A client at its start.
fn state_of(
    alloc: Global,
    list: &(Client, CommandList),
    stops: &StopList,
    tries: u32,
    counts: Counts,
) -> Result<ClientState, NoMemory>
    requires counts { AreCounts counts }
    requires tries { 1 ≤ tries }
    requires form { IsTrue (are_in_form list.now) }
    ensures client { IfOk result (λ state. client_of state ≡ list.now.0) }
    ensures progress { IfOk result (λ state. progress_of state ≡ starts (plan_of tries list.now.1) (stop_in stops.now list.now.0.0)) }
    ensures counts { IfOk result (λ state. counts_of state ≡ counts) }
{
    let queue = queue_of(alloc, list.1.as_slice())?;
    let stop = stops.steps_of(list.0);
    Ok(ClientState::new(alloc, list.0, queue, stop, tries, counts))
}

/// The Renamer, the collector, and the clients of these lists, at their start.
pub fn states_of(
    alloc: Global,
    lists: &[(Client, CommandList)],
    stops: &StopList,
    tries: u32,
    counts: Counts,
) -> Result<Vec<ActorState>, NoMemory>
    requires counts { AreCounts counts }
    requires tries { 1 ≤ tries }
    requires form { IsTrue (list_all are_in_form lists.now) }
    ensures { IfOk result (λ states. standings states.items ≡ opening_cast tries counts stops.now lists.now) }
{
    let mut states = Vec::new(alloc);
    states.push(ActorState::Renamer(JobState::new()))?;
    states.push(ActorState::Collector(RoundState::new(counts)))?;
    for list in lists {
        let state = state_of(alloc, list, stops, tries, counts)?;
        states.push(ActorState::Client(state))?;
    }
    Ok(states)
}
