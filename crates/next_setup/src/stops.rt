//! Which clients stop.
ghost use Rattle.std.specs.Prelude.{◌≡◌, ◌++◌, ◌∷◌, [], false, length, slice_get, OnOk, OnErr, IfErr};
ghost use Rattle.std.specs.Option.{option_copied};
ghost use Rattle.next_setup.specs.Stops.{has_stop, stop_in};

use next_ids::Client;
use std::alloc::Global;
use std::marker::Model;

/// The clients that stop, each with the number of its own steps after which it does. A client has one item at most.
#[derive(Debug, Drop)]
pub struct StopList {
    stops: Vec<(Client, u64)>,
}

impl Model for StopList {
    ghost use Rattle.std.specs.Prelude.{List, ℕ, IsTrue};
    ghost use Rattle.next_ids.specs.declared.ids.Client.{Client};
    ghost use Rattle.next_setup.specs.Stops.{names_once};

    ghost Value = { List (Client × ℕ) };

    ghost view = { λ list. list.stops.items };

    ghost invariant = { λ list. IsTrue (names_once list.stops.items) };
}

impl StopList {
    /// No client stops.
    pub fn new(alloc: Global) -> StopList
        ensures { result ≡ [] }
    {
        StopList {
            stops: Vec::new(alloc),
        }
    }

    /// How many clients stop.
    pub fn len(&self) -> usize
        ensures { result ≡ length self.now }
    {
        self.stops.len()
    }

    /// The client at the index, with its steps. None comes exactly at and past the length.
    pub fn get(&self, i: usize) -> Option<&(Client, u64)>
        ensures { option_copied result ≡ slice_get self.now i }
    {
        self.stops.get(i)
    }

    /// Whether the client stops.
    pub fn has(&self, client: Client) -> bool
        ensures { result ≡ has_stop self.now client }
    {
        has_client(self.stops.as_slice(), client)
    }

    /// After how many of its steps the client stops. None comes exactly where it doesn't.
    pub fn steps_of(&self, client: Client) -> Option<u64>
        ensures { result ≡ stop_in self.now client.0 }
    {
        steps_in(self.stops.as_slice(), client)
    }

    /// Adds a client that stops after so many of its steps. The Err is want of memory, and hands the item back.
    #[tactic(auto, using(crate::proofs::Stopping::stopping))]
    pub fn push(&mut self, stop: (Client, u64)) -> Result<(), (Client, u64)>
        requires { has_stop self.old stop.0 ≡ false }
        ensures ok { OnOk result (self.new ≡ self.old ++ stop ∷ []) }
        ensures err { OnErr result (self.new ≡ self.old) }
        ensures back { IfErr result (λ back. back ≡ stop) }
    {
        match self.stops.push(stop) {
            Ok(()) => Ok(()),
            Err(failed) => Err(failed.value),
        }
    }
}

fn has_client(stops: &[(Client, u64)], client: Client) -> bool
    ensures { result ≡ has_stop stops.now client }
{
    stops.iter().any(|stop| stop.0.0 == client.0)
}

fn steps_in(stops: &[(Client, u64)], client: Client) -> Option<u64>
    ensures { result ≡ stop_in stops.now client.0 }
{
    for stop in stops {
        if stop.0.0 == client.0 {
            return Some(stop.1);
        }
    }
    None
}
