//! A turn of one client on the places.
ghost use Rattle.std.specs.Prelude.{◌≡◌, ◌≢◌, ◌+◌, ◌↔◌, true, false, Ok, Some, IfOk, IsTrue, OnErr, length, reverse};
ghost use Rattle.cfs_steps.specs.declared.ask.Ask.{Ask};
ghost use Rattle.cfs_steps.specs.Asks.{place_of};
ghost use Rattle.cfs_rules.specs.Facts.{Unlocked};
ghost use Rattle.cfs_rules.specs.Worlds.{AreCounts, next_ask};
ghost use Rattle.cfs_view.specs.Held.{full};
ghost use Rattle.cfs_view.specs.Views.{held, counts_of, IsService};
ghost use Rattle.cfs_core.specs.Clients.{works_with};
ghost use Rattle.cfs_core.specs.Reach.{ProgressThere, RowsThere, places_there};
ghost use Rattle.cfs_actor.specs.Clients.{client_of, progress_of};
ghost use Rattle.cfs_core.specs.Parts.{Part, turn_part, full_next};

use crate::turned::Turned;
use cfs_actor::ClientState;
use cfs_ids::{Actor, NoMemory, PlaceNo};
use cfs_steps::ServeFault;
use cfs_view::Places;

/// Makes the client's next step. On Err all is as before.
pub fn turn_client(
    places: &mut Places,
    order: &mut Vec<PlaceNo>,
    state: &mut ClientState,
) -> Result<Turned, NoMemory>
    requires service { IsService places.old }
    requires sized { AreCounts (counts_of places.old) }
    requires free { Unlocked (held places.old).shard }
    requires alike { works_with (counts_of places.old) state.old ≡ true }
    requires there { ProgressThere (counts_of places.old) (progress_of state.old) }
    requires named { RowsThere (counts_of places.old) (held places.old).shard }
    ensures stepped { result ≡ Ok Turned.Stepped → record { held = held places.new; progress = progress_of state.new; order = reverse order.new.items } ≡ turn_part (counts_of places.old) (client_of state.old) (record { held = held places.old; progress = progress_of state.old; order = reverse order.old.items }) }
    ensures idle { (result ≡ Ok Turned.Idle) ↔ ((progress_of state.old).ended ≡ true) }
    ensures full { (place : _) → result ≡ Ok (Turned.Full place) → (ask : Ask) × (Some ask ≡ next_ask (counts_of places.old) (client_of state.old) (progress_of state.old)) × (place ≡ place_of ask) × (full (held places.old) (progress_of state.old).last ask ≡ true) }
    ensures room { result ≡ Ok Turned.Stepped → full_next (counts_of places.old) (client_of state.old) (held places.old) (progress_of state.old) ≡ false }
    ensures one_more { result ≡ Ok Turned.Stepped → length order.new.items ≡ length order.old.items + 1 }
    ensures same_held { result ≢ Ok Turned.Stepped → held places.new ≡ held places.old }
    ensures same_progress { result ≢ Ok Turned.Stepped → progress_of state.new ≡ progress_of state.old }
    ensures same_order { result ≢ Ok Turned.Stepped → order.new.items ≡ order.old.items }
    ensures client { client_of state.new ≡ client_of state.old }
    ensures service { IsService places.new }
    ensures counts { counts_of places.new ≡ counts_of places.old }
    ensures alike { works_with (counts_of places.old) state.new ≡ true }
    ensures there { ProgressThere (counts_of places.old) (progress_of state.new) }
    ensures asked { places_there (counts_of places.old) order.old.items ≡ true → places_there (counts_of places.old) order.new.items ≡ true }
{
    state.settle()?;
    if state.has_ended() {
        return Ok(Turned::Idle);
    }
    order.reserve(1)?;
    let ask = state.ask()?;
    match places.serve(Actor::Client(state.client()), state.last(), &ask) {
        Ok(entry) => {
            let place = ask.place();
            state.hear(place, entry);
            order.push(place).unwrap();
            Ok(Turned::Stepped)
        }
        Err(ServeFault::LogFull) => Ok(Turned::Full(ask.place())),
        Err(ServeFault::NoMemory) => Err(NoMemory),
    }
}
