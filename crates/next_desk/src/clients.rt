//! The clients that were entered in a part of the roster.
ghost use Rattle.std.specs.Prelude.{◌≡◌, ◌<◌, ◌^◌, [], IfOk, OnOk, OnErr};
ghost use Rattle.std.specs.FinMap.{entries, insert};
ghost use Rattle.next_steps.specs.ClientSets as sets;
ghost use Rattle.next_desk.specs.Entered.{clients_of, AreClients};

use next_ids::{Client, NoMemory};
use next_maps::NumberMap;
use next_steps::ClientSet;
use std::alloc::Global;
use std::marker::Model;

/// Clients, by their numbers.
#[derive(Drop)]
pub struct EnteredClients {
    numbers: NumberMap<()>,
}

impl Model for EnteredClients {
    ghost use Rattle.std.specs.Prelude.{List};
    ghost use Rattle.std.specs.FinMap.{entries};
    ghost use Rattle.next_ids.specs.declared.ids.Client.{Client};
    ghost use Rattle.next_desk.specs.Entered.{clients_of, AreClients};

    ghost Value = { List Client };

    ghost view = { λ entered. clients_of entered.numbers };

    ghost invariant = { λ entered. AreClients (entries entered.numbers) };
}

// The key of a client.
fn key_of(client: Client) -> u64
    ensures same { result ≡ client.0 }
    ensures low { result < 2 ^ 32 }
{
    u64::from(client.0)
}

// Sets the number in the map.
fn set_number(numbers: &mut NumberMap<()>, number: u64) -> Result<(), NoMemory>
    ensures ok { OnOk result (numbers.new ≡ insert numbers.old number tt) }
    ensures err { OnErr result (numbers.new ≡ numbers.old) }
{
    match numbers.set(number, ()) {
        Ok(_) => Ok(()),
        Err(_) => Err(NoMemory),
    }
}

// The clients by rising number.
fn set_of(alloc: Global, numbers: &NumberMap<()>) -> Result<ClientSet, NoMemory>
    requires { AreClients (entries numbers.now) }
    ensures { IfOk result (λ set. set ≡ clients_of numbers.now) }
{
    let mut set = ClientSet::new(alloc);
    for (number, _) in numbers.iter() {
        match set.push(Client(*number as u32)) {
            Ok(()) => {}
            Err(_) => return Err(NoMemory),
        }
    }
    Ok(set)
}

impl EnteredClients {
    /// No client.
    pub fn new(alloc: Global) -> EnteredClients
        ensures { result ≡ [] }
    {
        EnteredClients {
            numbers: NumberMap::new(alloc),
        }
    }

    /// Enters the client at its place, where it may stand already.
    pub fn enter(&mut self, client: Client) -> Result<(), NoMemory>
        ensures ok { OnOk result (self.new ≡ sets.entered self.old client) }
        ensures err { OnErr result (self.new ≡ self.old) }
    {
        set_number(&mut self.numbers, key_of(client))?;
        Ok(())
    }

    /// Whether the client is entered.
    pub fn has(&self, client: Client) -> bool
        ensures { result ≡ sets.holds self.now client }
    {
        self.numbers.get(key_of(client)).is_some()
    }

    /// All, by rising number.
    pub fn all(&self, alloc: Global) -> Result<ClientSet, NoMemory>
        ensures { IfOk result (λ set. set ≡ self.now) }
    {
        set_of(alloc, &self.numbers)
    }
}
