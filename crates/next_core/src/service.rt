//! Places and actors, turned step by step.
ghost use Rattle.std.specs.Prelude.{◌≡◌, ◌≢◌, ◌≤◌, ◌+◌, IsTrue, true, false, Ok, Some, IfOk, IfErr, reverse};
ghost use Rattle.std.specs.List.{list_all};
ghost use Rattle.std.proofs.Props.{props};
ghost use Rattle.next_rules.proofs.OnlyOne.{AreNumbered-prop, AreOwnShards-prop, AreOwnStores-prop};
ghost use Rattle.next_steps.specs.declared.ask.Ask.{Ask};
ghost use Rattle.next_rules.specs.Setups.{AreCounts};
ghost use Rattle.next_rules.specs.Worlds.{opening, turn};
ghost use Rattle.next_actor.specs.ActorStates.{is_settled};
ghost use Rattle.next_actor.specs.Standings.{has_ended};
ghost use Rattle.next_places.specs.Held.{opening_held};
ghost use Rattle.next_places.specs.Views.{held as held_in, IsService};
ghost use Rattle.next_core.specs.Casts.{standings, standing_at};
ghost use Rattle.next_core.specs.Opening.{are_in_form, counts_in, members_in, setup_of};
ghost use Rattle.next_core.specs.Parts.{log_full};
ghost use Rattle.next_core.specs.Reached.{IsSound};

use crate::begin::states_of;
use crate::finish::{entries_of, settle_all};
use crate::run::Run;
use crate::turned::Turned;
use crate::turning::turn_among;
use next_actor::ActorState;
use next_ids::{Actor, Counts, NoMemory, PlaceNo};
use next_places::Places;
use next_setup::Script;
use std::alloc::Global;

/// The places and the actors of a script, after some turns. It keeps the order in which the places were asked. Turns of
/// some setup lead to its world.
#[derive(Drop)]
pub struct Core {
    alloc: Global,
    places: Places,
    actors: Vec<ActorState>,
    order: Vec<PlaceNo>,
    ghost sound: { IsSound places (standings actors.items) order.items } by { Prim.hlevel (props, AreNumbered-prop, AreOwnShards-prop, AreOwnStores-prop) },
}

impl Core {
    ghost use Rattle.next_core.specs.Cores.{world_of, cast_of, counts_of, members_of, is_member, steps_of, held_of, asked_of, is_idle, AsksFull};

    /// The core of a script of 1 to 64 shards and 1 to 64 stores, whose commands are in form, before its first turn. Each
    /// call is made up to `tries` times. The Err is want of memory.
    pub fn begin(alloc: Global, script: &Script, tries: u32) -> Result<Core, NoMemory>
        requires counts { AreCounts (counts_in script.now) }
        requires tries { 1 ≤ tries }
        requires form { IsTrue (list_all are_in_form script.now.commands) }
        ensures world { IfOk result (λ core. world_of core ≡ opening (setup_of tries script.now)) }
        ensures counts { IfOk result (λ core. counts_of core ≡ counts_in script.now) }
        ensures members { IfOk result (λ core. members_of core ≡ members_in script.now.commands) }
        ensures steps { IfOk result (λ core. steps_of core ≡ 0) }
        ensures held { IfOk result (λ core. held_of core ≡ opening_held) }
    {
        let counts = Counts {
            shards: script.shards,
            stores: script.stores,
        };
        let lists = script.commands.as_slice();
        Ok(Core {
            alloc,
            places: Places::new(alloc, counts)?,
            actors: states_of(alloc, lists, &script.stops, tries, counts)?,
            order: Vec::new(alloc),
        })
    }

    /// Makes the next step of the actor, at the moment: of the Renamer, the collector, or a client of the script. Idle comes
    /// exactly where the actor has ended or the desk has nothing to tell it yet, and for an ended one always; Full only
    /// where the log of its next place has 1,048,576 entries. The Err is want of memory. After these the core is as before.
    pub fn turn(&mut self, actor: Actor, moment: u64) -> Result<Turned, NoMemory>
        requires { IsTrue (is_member self.old actor) }
        ensures stepped { result ≡ Ok Turned.Stepped → world_of self.new ≡ turn (counts_of self.old) (world_of self.old) (record { actor = actor; moment = moment }) }
        ensures idle { result ≡ Ok Turned.Idle → IsTrue (is_idle self.old moment actor) }
        ensures waits { IsTrue (is_idle self.old moment actor) → IfOk result (λ turned. turned ≡ Turned.Idle) }
        ensures ended { has_ended (standing_at (cast_of self.old) actor) ≡ true → result ≡ Ok Turned.Idle }
        ensures same { result ≢ Ok Turned.Stepped → world_of self.new ≡ world_of self.old }
        ensures steps { result ≡ Ok Turned.Stepped → steps_of self.new ≡ steps_of self.old + 1 }
        ensures same_steps { result ≢ Ok Turned.Stepped → steps_of self.new ≡ steps_of self.old }
        ensures full { (place : _) → result ≡ Ok (Turned.Full place) → AsksFull self.old moment actor place }
        ensures room { result ≡ Ok Turned.Stepped → (ask : Ask) → Some ask ≡ asked_of self.old moment actor → log_full (held_of self.old) ask ≡ false }
        ensures many { (place : _) → result ≡ Ok (Turned.Full place) → 1048576 ≤ steps_of self.old }
        ensures same_held { result ≢ Ok Turned.Stepped → held_of self.new ≡ held_of self.old }
        ensures members { members_of self.new ≡ members_of self.old }
        ensures counts { counts_of self.new ≡ counts_of self.old }
    {
        turn_among(
            &mut self.places,
            &mut self.actors,
            &mut self.order,
            actor,
            moment,
        )
    }

    /// Ends the run: its entries in order, the places, and the actors, which have worked in all that they kept. The Err is
    /// want of memory, and hands the core back.
    pub fn finish(mut self) -> Result<Run, Core>
        ensures entries { IfOk result (λ run. reverse run.entries ≡ (world_of self).run) }
        ensures places { IfOk result (λ run. held_in run.places ≡ held_of self) }
        ensures service { IfOk result (λ run. IsService run.places) }
        ensures actors { IfOk result (λ run. standings run.actors.items ≡ cast_of self) }
        ensures settled { IfOk result (λ run. list_all is_settled run.actors.items ≡ true) }
        ensures back { IfErr result (λ core. world_of core ≡ world_of self) }
        ensures held { IfErr result (λ core. held_of core ≡ held_of self) }
        ensures cast { IfErr result (λ core. cast_of core ≡ cast_of self) }
        ensures counts { IfErr result (λ core. counts_of core ≡ counts_of self) }
        ensures steps { IfErr result (λ core. steps_of core ≡ steps_of self) }
    {
        let Ok(()) = settle_all(&mut self.actors) else {
            return Err(self);
        };
        let Ok(entries) = entries_of(self.alloc, &self.places, self.order.as_slice()) else {
            return Err(self);
        };
        Ok(Run {
            entries,
            places: self.places,
            actors: self.actors,
        })
    }
}
