//! The state of any actor.
ghost use Rattle.std.specs.Prelude.{◌≡◌, ◌<◌, IsTrue, IfOk, IsOk, OnOk, Some, false, is_none};
ghost use Rattle.std.specs.Option.{option_map};
ghost use Rattle.next_steps.specs.Asks.{place_of};
ghost use Rattle.next_actor.specs.ActorStates.{standing_of, is_settled};
ghost use Rattle.next_actor.specs.Standings.{actor_of, last_of, has_ended, next_of, is_leaving, HasAsked, has_listed, after};

use crate::client_state::ClientState;
use crate::job_state::JobState;
use crate::round_state::RoundState;
use next_ids::{Actor, NoMemory, PlaceNo};
use next_steps::{Ask, Entry};

/// An actor, with its last number and what it keeps. After a step it keeps the entry until `settle` works it in; as
/// contracts see it, that was done at once.
#[derive(Drop)]
pub enum ActorState {
    Client(ClientState),
    Renamer(JobState),
    Collector(RoundState),
}

impl ActorState {
    /// The actor.
    pub fn actor(&self) -> Actor
        ensures { result ≡ actor_of (standing_of self.now) }
    {
        match self {
            ActorState::Client(state) => Actor::Client(state.client()),
            ActorState::Renamer(_) => Actor::Renamer,
            ActorState::Collector(_) => Actor::Collector,
        }
    }

    /// The actor's last number, 0 before its first step.
    pub fn last(&self) -> u64
        requires { IsTrue (is_settled self.now) }
        ensures { result ≡ last_of (standing_of self.now) }
    {
        match self {
            ActorState::Client(state) => state.last(),
            ActorState::Renamer(state) => state.last(),
            ActorState::Collector(state) => state.last(),
        }
    }

    /// The place of the next ask. None comes exactly where the actor is a client that has made its Stop or End step. It
    /// takes no memory.
    pub fn next_place(&self) -> Option<PlaceNo>
        requires { IsTrue (is_settled self.now) }
        ensures place { (moment : _) → result ≡ option_map place_of (next_of (standing_of self.now) moment) }
        ensures ended { is_none result ≡ has_ended (standing_of self.now) }
    {
        match self {
            ActorState::Client(state) => state.next_place(),
            ActorState::Renamer(state) => Some(state.next_place()),
            ActorState::Collector(state) => Some(state.next_place()),
        }
    }

    /// The next ask, at this moment. The Err is want of memory, which Stop and End don't take.
    pub fn ask(&self, moment: u64) -> Result<Ask, NoMemory>
        requires settled { IsTrue (is_settled self.now) }
        requires going { has_ended (standing_of self.now) ≡ false }
        ensures ask { IfOk result (λ ask. Some ask ≡ next_of (standing_of self.now) moment) }
        ensures sure { IsTrue (is_leaving (standing_of self.now)) → IsOk result }
    {
        match self {
            ActorState::Client(state) => state.ask(moment),
            ActorState::Renamer(state) => state.ask(moment),
            ActorState::Collector(state) => state.ask(moment),
        }
    }

    /// Takes the entry of the step that was asked, with an answer that the tables list for its ask, and a number above the
    /// actor's last. It takes no memory.
    pub fn hear(&mut self, place: PlaceNo, entry: Entry)
        requires settled { IsTrue (is_settled self.old) }
        requires going { has_ended (standing_of self.old) ≡ false }
        requires asked { HasAsked (standing_of self.old) entry }
        requires listed { IsTrue (has_listed (standing_of self.old) entry) }
        requires newer { last_of (standing_of self.old) < entry.number }
        ensures { standing_of self.new ≡ after (standing_of self.old) place entry }
    {
        match self {
            ActorState::Client(state) => state.hear(place, entry),
            ActorState::Renamer(state) => state.hear(place, entry),
            ActorState::Collector(state) => state.hear(place, entry),
        }
    }

    /// Works a kept entry in, and begins a client's next call. On Err the actor is as before, and an entry is still kept. An
    /// actor that is settled needs no memory, and a client that has stopped or ended is settled.
    pub fn settle(&mut self) -> Result<(), NoMemory>
        ensures standing { standing_of self.new ≡ standing_of self.old }
        ensures settled { OnOk result (IsTrue (is_settled self.new)) }
        ensures ended { IsTrue (has_ended (standing_of self.old)) → IsOk result }
        ensures sure { IsTrue (is_settled self.old) → IsOk result }
    {
        match self {
            ActorState::Client(state) => state.settle(),
            ActorState::Renamer(state) => state.settle(),
            ActorState::Collector(state) => state.settle(),
        }
    }
}
