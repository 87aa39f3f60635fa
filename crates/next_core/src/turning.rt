//! A turn among all actors.
ghost use Rattle.std.specs.Prelude.{◌≡◌, ◌≢◌, ◌≤◌, ◌+◌, IsTrue, IfOk, true, false, Ok, Some, position, length};
ghost use Rattle.next_steps.specs.declared.ask.Ask.{Ask};
ghost use Rattle.next_steps.specs.Asks.{place_of};
ghost use Rattle.next_rules.specs.Actors.{next_ask};
ghost use Rattle.next_rules.specs.Worlds.{turn};
ghost use Rattle.next_actor.specs.ActorStates.{standing_of};
ghost use Rattle.next_actor.specs.Standings.{has_ended};
ghost use Rattle.next_places.specs.Views.{held, counts_of};
ghost use Rattle.next_core.specs.Casts.{standings, standing_at, is_of, is_same, is_member, clients_in, actors_in};
ghost use Rattle.next_core.specs.Parts.{log_full, is_idle};
ghost use Rattle.next_core.specs.Reached.{world_in, IsSound};

use crate::part::turn_actor;
use crate::turned::Turned;
use next_actor::ActorState;
use next_ids::{Actor, NoMemory, PlaceNo};
use next_places::Places;

// Whether these two are the same actor.
fn same(one: Actor, other: Actor) -> bool
    ensures { result ≡ is_same one other }
{
    match (one, other) {
        (Actor::Client(client), Actor::Client(other)) => client.0 == other.0,
        (Actor::Renamer, Actor::Renamer) | (Actor::Collector, Actor::Collector) => true,
        _ => false,
    }
}

// The index of the actor's state.
fn index_of(actors: &[ActorState], actor: Actor) -> Option<usize>
    ensures { result ≡ position (λ state. is_of actor (standing_of state)) actors.now }
{
    actors.iter().position(|state| same(state.actor(), actor))
}

/// Makes the actor's next step on the places, at the moment.
pub fn turn_among(
    places: &mut Places,
    actors: &mut Vec<ActorState>,
    order: &mut Vec<PlaceNo>,
    actor: Actor,
    moment: u64,
) -> Result<Turned, NoMemory>
    requires member { IsTrue (is_member (standings actors.old.items) actor) }
    requires sound { IsSound places.old (standings actors.old.items) order.old.items }
    ensures stepped { result ≡ Ok Turned.Stepped → world_in places.new (standings actors.new.items) order.new.items ≡ turn (counts_of places.old) (world_in places.old (standings actors.old.items) order.old.items) (record { actor = actor; moment = moment }) }
    ensures idle { result ≡ Ok Turned.Idle → IsTrue (is_idle moment (held places.old) (standing_at (standings actors.old.items) actor)) }
    ensures waits { IsTrue (is_idle moment (held places.old) (standing_at (standings actors.old.items) actor)) → IfOk result (λ turned. turned ≡ Turned.Idle) }
    ensures ended { has_ended (standing_at (standings actors.old.items) actor) ≡ true → result ≡ Ok Turned.Idle }
    ensures full { (place : _) → result ≡ Ok (Turned.Full place) → (ask : Ask) × (Some ask ≡ next_ask (counts_of places.old) (actors_in (standings actors.old.items)) moment actor) × (place ≡ place_of ask) × (log_full (held places.old) ask ≡ true) }
    ensures room { result ≡ Ok Turned.Stepped → (ask : Ask) → Some ask ≡ next_ask (counts_of places.old) (actors_in (standings actors.old.items)) moment actor → log_full (held places.old) ask ≡ false }
    ensures many { (place : _) → result ≡ Ok (Turned.Full place) → 1048576 ≤ length order.old.items }
    ensures same { result ≢ Ok Turned.Stepped → world_in places.new (standings actors.new.items) order.new.items ≡ world_in places.old (standings actors.old.items) order.old.items }
    ensures same_held { result ≢ Ok Turned.Stepped → held places.new ≡ held places.old }
    ensures steps { result ≡ Ok Turned.Stepped → length order.new.items ≡ length order.old.items + 1 }
    ensures same_steps { result ≢ Ok Turned.Stepped → length order.new.items ≡ length order.old.items }
    ensures members { clients_in (standings actors.new.items) ≡ clients_in (standings actors.old.items) }
    ensures sound { IsSound places.new (standings actors.new.items) order.new.items }
    ensures counts { counts_of places.new ≡ counts_of places.old }
{
    match index_of(actors, actor) {
        Some(at) => {
            let state = &mut actors[at];
            turn_actor(places, order, state, moment)
        }
        None => unreachable!(),
    }
}
