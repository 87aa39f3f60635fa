//! Sets of clients.
ghost use Rattle.std.specs.Prelude.{◌≡◌, [], ◌∷◌, ◌++◌, length, slice_get, OnOk, OnErr, IfOk, IfErr};
ghost use Rattle.std.specs.Option.{option_copied};
ghost use Rattle.next_steps.specs.ClientSets as sets;
ghost use Rattle.next_steps.specs.ClientSets.{IsAbove, is_client};

use next_ids::{Client, NoMemory};
use std::alloc::{AllocError, Global};
use std::marker::Model;

/// Clients by rising number.
#[derive(Debug, Drop)]
pub struct ClientSet {
    clients: Vec<Client>,
}

impl Model for ClientSet {
    ghost use Rattle.std.specs.Prelude.{List};
    ghost use Rattle.next_ids.specs.declared.ids.Client.{Client};

    ghost Value = { List Client };

    ghost view = { λ set. set.clients.items };
}

// Whether the i-th client of the set is this one.
fn stands_at(clients: &ClientSet, i: usize, client: Client) -> bool
    ensures { result ≡ is_client client (slice_get clients.now i) }
{
    match clients.get(i) {
        Some(held) => held.0 == client.0,
        None => false,
    }
}

// Whether the set has the client.
fn holds(clients: &ClientSet, client: Client) -> bool
    ensures { result ≡ sets.holds clients.now client }
{
    for i in 0..clients.len() {
        if stands_at(clients, i, client) {
            return true;
        }
    }
    false
}

impl ClientSet {
    /// No clients.
    pub fn new(alloc: Global) -> ClientSet
        ensures { result ≡ [] }
    {
        ClientSet {
            clients: Vec::new(alloc),
        }
    }

    /// How many clients there are.
    pub fn len(&self) -> usize
        ensures { result ≡ length self.now }
    {
        self.clients.len()
    }

    /// The i-th client, from 0. None comes exactly at and past the length.
    pub fn get(&self, i: usize) -> Option<&Client>
        ensures { option_copied result ≡ slice_get self.now i }
    {
        self.clients.get(i)
    }

    /// Whether the set has the client.
    pub fn has(&self, client: Client) -> bool
        ensures { result ≡ sets.holds self.now client }
    {
        holds(self, client)
    }

    /// Adds a client, whose number is above the last. The Err is want of memory, and hands the client back.
    pub fn push(&mut self, client: Client) -> Result<(), Client>
        requires { IsAbove self.old client }
        ensures ok { OnOk result (self.new ≡ self.old ++ client ∷ []) }
        ensures err { OnErr result (self.new ≡ self.old) }
        ensures back { IfErr result (λ back. back ≡ client) }
    {
        match self.clients.push(client) {
            Ok(()) => Ok(()),
            Err(failed) => Err(failed.value),
        }
    }

    /// A copy.
    pub fn copy(&self) -> Result<ClientSet, NoMemory>
        ensures { IfOk result (λ copy. copy ≡ self.now) }
    {
        Ok(self.clone()?)
    }
}

impl Clone for ClientSet {
    ghost is_clone = { λ set copy. copy ≡ set };

    fn clone(&self) -> Result<Self, AllocError> {
        Ok(ClientSet {
            clients: self.clients.clone()?,
        })
    }
}
