//! The law of reach: whoever asks, and whenever, asks a place that the service has.
#![tactic(auto)]

ghost use Rattle.std.specs.Prelude.{◌≡◌, ℕ, List, true, Option, Some};
ghost use Rattle.next_ids.specs.declared.ids.Actor.{Actor};
ghost use Rattle.next_steps.specs.declared.ask.Ask.{Ask};
ghost use Rattle.next_steps.specs.Asks.{place_of, suits};
ghost use Rattle.next_steps.specs.Calls.{is_going};
ghost use Rattle.next_steps.specs.Phases.{Phase};
ghost use Rattle.next_rules.specs.Actors.{next_ask};
ghost use Rattle.next_rules.specs.Setups.{AreCounts, IsSetup, has_place};
ghost use Rattle.next_rules.specs.Worlds.{Setup, Turn, played};

/// Whatever clients, Renamer and collector do: each asks a place that the service has, and what places of that kind
/// serve.
pub fn each_place_that_is_asked_is_there()
    ensures { (setup : Setup) → IsSetup setup → (turns : List Turn) (actor : Actor) (moment : ℕ) (ask : Ask)
        → next_ask setup.counts (played setup turns).actors moment actor ≡ Some ask
        → (has_place setup.counts (place_of ask).0 ≡ true) × (suits ask ≡ true) }
{}

/// The current call of a client is never a finished one: it has still steps to make.
pub fn phases_go_on()
    ensures { (setup : Setup) → AreCounts setup.counts → (turns : List Turn) (c : ℕ) (phase : Phase)
        → ((played setup turns).actors.clients c).current ≡ Some phase → is_going phase ≡ true }
{}
