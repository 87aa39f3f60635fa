//! Places and clients, turned step by step.
ghost use Rattle.std.specs.Prelude.{◌≡◌, ◌≢◌, ◌≤◌, ◌↔◌, ◌+◌, IsTrue, true, false, Ok, Some, IfOk, IfErr};
ghost use Rattle.std.specs.List.{list_all};
ghost use Rattle.std.proofs.Props.{props};
ghost use Rattle.cfs_rules.proofs.OnlyOne.{AreNumbered-prop, AreOwnShards-prop, AreOwnStores-prop};
ghost use Rattle.cfs_steps.specs.declared.ask.Ask.{Ask};
ghost use Rattle.cfs_steps.specs.Asks.{place_of};
ghost use Rattle.cfs_rules.specs.Worlds.{AreCounts, client_of, opening, turn};
ghost use Rattle.cfs_setup.specs.Built.{are_built};
ghost use Rattle.cfs_view.specs.Held.{opening_held, log_full};
ghost use Rattle.cfs_view.specs.Views.{held, counts_of as places_of};
ghost use Rattle.cfs_core.specs.Clients.{IsSound, number_in};
ghost use Rattle.cfs_core.specs.Finished.{IsRunOf};
ghost use Rattle.cfs_core.specs.Opening.{setup_of, members_in};
ghost use Rattle.cfs_core.specs.Reach.{PlanThere-prop};

use crate::begin::states_of;
use crate::finish::{calls_of_all, entries_of};
use crate::run::Run;
use crate::turned::Turned;
use crate::turning::turn_among;
use cfs_actor::ClientState;
use cfs_ids::{Actor, Client, NoMemory, PlaceNo};
use cfs_setup::Script;
use cfs_view::Places;
use std::alloc::Global;

// The client that the actor is.
fn client_in(actor: Actor) -> Client
    ensures { result ≡ client_of (number_in actor) }
{
    let Actor::Client(client) = actor;
    client
}

/// The places and the clients of a script, after some turns. It keeps the order in which the places were asked.
#[derive(Drop)]
pub struct Core {
    alloc: Global,
    places: Places,
    clients: Vec<ClientState>,
    order: Vec<PlaceNo>,
    ghost sound: { IsSound places clients.items order.items } by { Prim.hlevel (props, AreNumbered-prop, AreOwnShards-prop, AreOwnStores-prop, PlanThere-prop) },
}

impl Core {
    ghost use Rattle.cfs_core.specs.Cores.{world_of, counts_of, members_of, is_member, steps_of, held_of, held_after, asked_of, AsksFull};

    /// The core of a script of 1 to 64 shards and 1 to 64 stores, whose commands are built, before its first turn. The
    /// Err is want of memory.
    pub fn begin(alloc: Global, script: &Script) -> Result<Core, NoMemory>
        requires counts { AreCounts (setup_of script.now).counts }
        requires built { IsTrue (list_all are_built script.now.commands) }
        ensures world { IfOk result (λ core. world_of core ≡ opening (setup_of script.now)) }
        ensures counts { IfOk result (λ core. counts_of core ≡ (setup_of script.now).counts) }
        ensures members { IfOk result (λ core. members_of core ≡ members_in script.now.commands) }
        ensures steps { IfOk result (λ core. steps_of core ≡ 0) }
        ensures held { IfOk result (λ core. held_of core ≡ opening_held) }
    {
        let lists = script.commands.as_slice();
        let clients = states_of(alloc, lists, script.shards, script.stores)?;
        Ok(Core {
            alloc,
            places: Places::new(alloc, script.shards, script.stores)?,
            clients,
            order: Vec::new(alloc),
        })
    }

    /// Makes the next step of the actor, a client of the script. Idle comes exactly where the actor has ended, Full only
    /// where the log of its next place has 1,048,576 entries. The Err is want of memory. After these the core is as
    /// before.
    pub fn turn(&mut self, actor: Actor) -> Result<Turned, NoMemory>
        requires { IsTrue (is_member self.old (number_in actor)) }
        ensures stepped { result ≡ Ok Turned.Stepped → world_of self.new ≡ turn (counts_of self.old) (world_of self.old) (number_in actor) }
        ensures idle { (result ≡ Ok Turned.Idle) ↔ (((world_of self.old).clients (number_in actor)).ended ≡ true) }
        ensures same { result ≢ Ok Turned.Stepped → world_of self.new ≡ world_of self.old }
        ensures steps { result ≡ Ok Turned.Stepped → steps_of self.new ≡ steps_of self.old + 1 }
        ensures same_steps { result ≢ Ok Turned.Stepped → steps_of self.new ≡ steps_of self.old }
        ensures full { (place : _) → result ≡ Ok (Turned.Full place) → AsksFull self.old (number_in actor) place }
        ensures room { result ≡ Ok Turned.Stepped → (ask : Ask) → Some ask ≡ asked_of self.old (number_in actor) → log_full (held_of self.old) ask ≡ false }
        ensures held { result ≡ Ok Turned.Stepped → (ask : Ask) → Some ask ≡ asked_of self.old (number_in actor) → held_of self.new ≡ held_after self.old (number_in actor) ask }
        ensures many { (place : _) → result ≡ Ok (Turned.Full place) → 1048576 ≤ steps_of self.old }
        ensures same_held { result ≢ Ok Turned.Stepped → held_of self.new ≡ held_of self.old }
        ensures members { members_of self.new ≡ members_of self.old }
        ensures counts { counts_of self.new ≡ counts_of self.old }
    {
        let client = client_in(actor);
        turn_among(&mut self.places, &mut self.clients, &mut self.order, client)
    }

    /// Ends the run: its entries in order, the places, and the calls of the clients. The Err is want of memory, and hands
    /// the core back.
    pub fn finish(mut self) -> Result<Run, Core>
        ensures run { IfOk result (λ run. IsRunOf (members_of self) (world_of self) run) }
        ensures places { IfOk result (λ run. held run.places ≡ held_of self) }
        ensures places_count { IfOk result (λ run. places_of run.places ≡ counts_of self) }
        ensures back { IfErr result (λ core. world_of core ≡ world_of self) }
        ensures held { IfErr result (λ core. held_of core ≡ held_of self) }
        ensures members { IfErr result (λ core. members_of core ≡ members_of self) }
        ensures counts { IfErr result (λ core. counts_of core ≡ counts_of self) }
        ensures steps { IfErr result (λ core. steps_of core ≡ steps_of self) }
    {
        let Ok(calls) = calls_of_all(self.alloc, &mut self.clients) else {
            return Err(self);
        };
        let Ok(entries) = entries_of(self.alloc, &self.places, self.order.as_slice()) else {
            return Err(self);
        };
        Ok(Run {
            entries,
            places: self.places,
            calls,
        })
    }
}
