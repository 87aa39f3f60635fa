//! The clients of the roster.
ghost use Rattle.std.specs.Prelude.{◌≡◌, [], ◌∷◌, ◌++◌, OnOk, OnErr};
ghost use Rattle.cfs_rules.specs.Trees.{has_ended};

use cfs_ids::{Client, NoMemory};
use std::alloc::Global;
use std::marker::Model;

/// Clients in the order in which they were entered.
#[derive(Debug, Drop)]
pub struct EnteredClients {
    clients: Vec<Client>,
}

impl Model for EnteredClients {
    ghost use Rattle.std.specs.Prelude.{List};
    ghost use Rattle.cfs_ids.specs.declared.ids.Client.{Client};

    ghost Value = { List Client };

    ghost view = { λ entered. entered.clients.items };
}

impl EnteredClients {
    /// No client.
    pub fn new(alloc: Global) -> EnteredClients
        ensures { result ≡ [] }
    {
        EnteredClients {
            clients: Vec::new(alloc),
        }
    }

    /// Enters a client.
    pub fn push(&mut self, client: Client) -> Result<(), NoMemory>
        ensures ok { OnOk result (self.new ≡ self.old ++ client ∷ []) }
        ensures err { OnErr result (self.new ≡ self.old) }
    {
        self.clients.push(client)?;
        Ok(())
    }

    /// Whether the client is entered.
    pub fn contains(&self, client: Client) -> bool
        ensures { result ≡ has_ended self.now client }
    {
        self.clients.iter().any(|entered| entered.0 == client.0)
    }
}
