//! A turn of one actor on the places.
ghost use Rattle.std.specs.Prelude.{◌≡◌, ◌≢◌, ◌+◌, true, false, Ok, Some, IfOk, IsTrue, length, reverse};
ghost use Rattle.next_steps.specs.declared.ask.Ask.{Ask};
ghost use Rattle.next_steps.specs.Asks.{place_of, suits};
ghost use Rattle.next_rules.specs.Setups.{has_place};
ghost use Rattle.next_actor.specs.ActorStates.{standing_of};
ghost use Rattle.next_actor.specs.Standings.{actor_of, last_of, has_ended, next_of};
ghost use Rattle.next_places.specs.Held.{full};
ghost use Rattle.next_places.specs.Views.{held, counts_of, IsService};
ghost use Rattle.next_core.specs.Casts.{works_with};
ghost use Rattle.next_core.specs.Parts.{Part, turn_part, full_next, is_idle};
ghost use Rattle.next_core.specs.Reached.{places_there};

use crate::turned::Turned;
use next_actor::ActorState;
use next_ids::{NoMemory, PlaceNo};
use next_places::Places;
use next_steps::ServeFault;

/// Makes the actor's next step, at the moment. On Err all is as before.
pub fn turn_actor(
    places: &mut Places,
    order: &mut Vec<PlaceNo>,
    state: &mut ActorState,
    moment: u64,
) -> Result<Turned, NoMemory>
    requires service { IsService places.old }
    requires alike { works_with (counts_of places.old) (standing_of state.old) ≡ true }
    requires there { (ask : Ask) → Some ask ≡ next_of (standing_of state.old) moment → has_place (counts_of places.old) (place_of ask).0 ≡ true }
    requires suited { (ask : Ask) → Some ask ≡ next_of (standing_of state.old) moment → suits ask ≡ true }
    ensures stepped { result ≡ Ok Turned.Stepped → record { held = held places.new; standing = standing_of state.new; order = reverse order.new.items } ≡ turn_part moment (record { held = held places.old; standing = standing_of state.old; order = reverse order.old.items }) }
    ensures idle { result ≡ Ok Turned.Idle → IsTrue (is_idle moment (held places.old) (standing_of state.old)) }
    ensures waits { IsTrue (is_idle moment (held places.old) (standing_of state.old)) → IfOk result (λ turned. turned ≡ Turned.Idle) }
    ensures ended { has_ended (standing_of state.old) ≡ true → result ≡ Ok Turned.Idle }
    ensures full { (place : _) → result ≡ Ok (Turned.Full place) → (ask : Ask) × (Some ask ≡ next_of (standing_of state.old) moment) × (place ≡ place_of ask) × (full (held places.old) (last_of (standing_of state.old)) ask ≡ true) }
    ensures room { result ≡ Ok Turned.Stepped → full_next moment (held places.old) (standing_of state.old) ≡ false }
    ensures one_more { result ≡ Ok Turned.Stepped → length order.new.items ≡ length order.old.items + 1 }
    ensures same_held { result ≢ Ok Turned.Stepped → held places.new ≡ held places.old }
    ensures same_standing { result ≢ Ok Turned.Stepped → standing_of state.new ≡ standing_of state.old }
    ensures same_order { result ≢ Ok Turned.Stepped → order.new.items ≡ order.old.items }
    ensures actor { actor_of (standing_of state.new) ≡ actor_of (standing_of state.old) }
    ensures alike { works_with (counts_of places.old) (standing_of state.new) ≡ true }
    ensures service { IsService places.new }
    ensures counts { counts_of places.new ≡ counts_of places.old }
    ensures asked { places_there (counts_of places.old) order.old.items ≡ true → places_there (counts_of places.old) order.new.items ≡ true }
{
    state.settle()?;
    if state.next_place().is_none() {
        return Ok(Turned::Idle);
    }
    order.reserve(1)?;
    let ask = state.ask(moment)?;
    match places.serve(state.actor(), state.last(), moment, &ask) {
        Ok(entry) => {
            let place = ask.place();
            state.hear(place, entry);
            order.push(place).unwrap();
            Ok(Turned::Stepped)
        }
        Err(ServeFault::NotYet) => Ok(Turned::Idle),
        Err(ServeFault::LogFull) => Ok(Turned::Full(ask.place())),
        Err(ServeFault::NoMemory) => Err(NoMemory),
    }
}
