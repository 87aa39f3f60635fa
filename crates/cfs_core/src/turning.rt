//! A turn among all clients.
ghost use Rattle.std.specs.Prelude.{◌≡◌, ◌==◌, ◌≢◌, ◌≤◌, ◌↔◌, ◌+◌, IsTrue, true, false, Ok, Some, position, length};
ghost use Rattle.cfs_ids.specs.declared.ids.Client.{Client};
ghost use Rattle.cfs_steps.specs.declared.ask.Ask.{Ask};
ghost use Rattle.cfs_steps.specs.Asks.{place_of};
ghost use Rattle.cfs_rules.specs.Worlds.{turn, next_ask};
ghost use Rattle.cfs_actor.specs.Clients.{client_of};
ghost use Rattle.cfs_view.specs.Held.{log_full};
ghost use Rattle.cfs_view.specs.Views.{held, counts_of};
ghost use Rattle.cfs_core.specs.Parts.{held_stepped};
ghost use Rattle.cfs_core.specs.Clients.{progress_in, members_of, is_member, world_in, IsSound};

use crate::part::turn_client;
use crate::turned::Turned;
use cfs_actor::ClientState;
use cfs_ids::{Client, NoMemory, PlaceNo};
use cfs_view::Places;

// The index of the client's state.
fn index_of(clients: &[ClientState], client: Client) -> Option<usize>
    ensures { result ≡ position (λ state. (client_of state).0 == client.0) clients.now }
{
    clients
        .iter()
        .position(|state| state.client().0 == client.0)
}

/// Makes the client's next step on the places.
pub fn turn_among(
    places: &mut Places,
    clients: &mut Vec<ClientState>,
    order: &mut Vec<PlaceNo>,
    client: Client,
) -> Result<Turned, NoMemory>
    requires member { IsTrue (is_member clients.old.items client.0) }
    requires sound { IsSound places.old clients.old.items order.old.items }
    ensures stepped { result ≡ Ok Turned.Stepped → world_in places.new clients.new.items order.new.items ≡ turn (counts_of places.old) (world_in places.old clients.old.items order.old.items) client.0 }
    ensures idle { (result ≡ Ok Turned.Idle) ↔ ((progress_in clients.old.items client.0).ended ≡ true) }
    ensures full { (place : _) → result ≡ Ok (Turned.Full place) → (ask : Ask) × (Some ask ≡ next_ask (counts_of places.old) client (progress_in clients.old.items client.0)) × (place ≡ place_of ask) × (log_full (held places.old) ask ≡ true) }
    ensures room { result ≡ Ok Turned.Stepped → (ask : Ask) → Some ask ≡ next_ask (counts_of places.old) client (progress_in clients.old.items client.0) → log_full (held places.old) ask ≡ false }
    ensures many { (place : _) → result ≡ Ok (Turned.Full place) → 1048576 ≤ length order.old.items }
    ensures same { result ≢ Ok Turned.Stepped → world_in places.new clients.new.items order.new.items ≡ world_in places.old clients.old.items order.old.items }
    ensures held { result ≡ Ok Turned.Stepped → (ask : Ask) → Some ask ≡ next_ask (counts_of places.old) client (progress_in clients.old.items client.0) → held places.new ≡ held_stepped (held places.old) client (progress_in clients.old.items client.0).last ask }
    ensures same_held { result ≢ Ok Turned.Stepped → held places.new ≡ held places.old }
    ensures steps { result ≡ Ok Turned.Stepped → length order.new.items ≡ length order.old.items + 1 }
    ensures same_steps { result ≢ Ok Turned.Stepped → length order.new.items ≡ length order.old.items }
    ensures members { members_of clients.new.items ≡ members_of clients.old.items }
    ensures sound { IsSound places.new clients.new.items order.new.items }
    ensures counts { counts_of places.new ≡ counts_of places.old }
{
    match index_of(clients, client) {
        Some(at) => {
            let state = &mut clients[at];
            turn_client(places, order, state)
        }
        None => unreachable!(),
    }
}
