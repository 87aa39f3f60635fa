//! The commands of each client.
ghost use Rattle.std.specs.Prelude.{◌≡◌, ◌==◌, ◌<◌, ◌≤◌, ◌∷◌, [], length, insert, vec_len, nat_le, position, slice_get, OnOk, OnErr, IsTrue};
ghost use Rattle.std.specs.Option.{option_copied};
ghost use Rattle.next_setup.specs.Lists.{rises_from, is_in, with_command};

use next_ids::{Client, NoMemory};
use next_walk::{Command, CommandList};
use std::alloc::Global;
use std::marker::Model;

/// The clients of a script, 1 to 32, by rising number, each with its commands.
#[derive(Debug, Drop)]
pub struct CommandLists {
    lists: Vec<(Client, CommandList)>,
}

impl Model for CommandLists {
    ghost use Rattle.std.specs.Prelude.{List, IsTrue};
    ghost use Rattle.next_ids.specs.declared.ids.Client.{Client};
    ghost use Rattle.next_walk.specs.declared.command.Command.{Command};
    ghost use Rattle.next_setup.specs.Lists.{rises_from};

    ghost Value = { List (Client × List Command) };

    ghost view = { λ list. list.lists.items };

    ghost invariant = { λ list. IsTrue (rises_from 0 list.lists.items) };
}

impl CommandLists {
    /// No clients.
    pub fn new(alloc: Global) -> CommandLists
        ensures { result ≡ [] }
    {
        CommandLists {
            lists: Vec::new(alloc),
        }
    }

    /// How many clients there are.
    pub fn len(&self) -> usize
        ensures { result ≡ length self.now }
    {
        self.lists.len()
    }

    /// The client at the index, with its commands. None comes exactly at and past the length.
    pub fn get(&self, i: usize) -> Option<&(Client, CommandList)>
        ensures { option_copied result ≡ slice_get self.now i }
    {
        self.lists.get(i)
    }

    /// The clients with their commands.
    pub fn as_slice(&self) -> &[(Client, CommandList)]
        ensures same { result.now ≡ self.now }
        ensures rising { IsTrue (rises_from 0 self.now) }
    {
        self.lists.as_slice()
    }

    /// Whether the client has commands.
    pub fn has(&self, client: Client) -> bool
        ensures { result ≡ is_in self.now client }
    {
        has_client(self.lists.as_slice(), client)
    }

    /// The clients with their commands, to be moved out.
    pub fn into_inner(self) -> Vec<(Client, CommandList)>
        ensures same { result.items ≡ self }
        ensures rising { IsTrue (rises_from 0 result.items) }
    {
        self.lists
    }

    /// Adds a command behind those of its client, 1 to 32. After want of memory the lists are as before.
    #[tactic(auto, using(crate::proofs::Rising::rising))]
    pub fn add(&mut self, alloc: Global, client: Client, command: Command) -> Result<(), NoMemory>
        requires low { 0 < client.0 }
        requires high { client.0 ≤ 32 }
        ensures ok { OnOk result (self.new ≡ with_command self.old client command) }
        ensures err { OnErr result (self.new ≡ self.old) }
    {
        add_to(&mut self.lists, alloc, client, command)
    }
}

fn has_client(lists: &[(Client, CommandList)], client: Client) -> bool
    ensures { result ≡ is_in lists.now client }
{
    lists.iter().any(|list| list.0.0 == client.0)
}

// The index of the first client that is not below this one.
fn place_of(lists: &[(Client, CommandList)], client: Client) -> Option<usize>
    ensures { result ≡ position (λ list. nat_le client.0 list.0.0) lists.now }
{
    lists.iter().position(|list| list.0.0 >= client.0)
}

// Puts a client with its first command at the index.
fn add_client(
    lists: &mut Vec<(Client, CommandList)>,
    at: usize,
    alloc: Global,
    client: Client,
    command: Command,
) -> Result<(), NoMemory>
    requires { at ≤ vec_len lists.old }
    ensures ok { OnOk result (lists.new.items ≡ insert lists.old.items at (client, command ∷ [])) }
    ensures err { OnErr result (lists.new.items ≡ lists.old.items) }
{
    let mut list = CommandList::new(alloc);
    let Ok(()) = list.push(command) else {
        return Err(NoMemory);
    };
    lists.insert(at, (client, list))?;
    Ok(())
}

#[tactic(auto, using(crate::proofs::Grouping::grouping))]
fn add_to(
    lists: &mut Vec<(Client, CommandList)>,
    alloc: Global,
    client: Client,
    command: Command,
) -> Result<(), NoMemory>
    ensures ok { OnOk result (lists.new.items ≡ with_command lists.old.items client command) }
    ensures err { OnErr result (lists.new.items ≡ lists.old.items) }
{
    let Some(at) = place_of(lists.as_slice(), client) else {
        let last = lists.len();
        return add_client(lists, last, alloc, client, command);
    };
    if lists[at].0.0 != client.0 {
        return add_client(lists, at, alloc, client, command);
    }
    let Ok(()) = lists[at].1.push(command) else {
        return Err(NoMemory);
    };
    Ok(())
}
