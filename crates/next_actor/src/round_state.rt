//! The state of the collector.
ghost use Rattle.std.specs.Prelude.{◌≡◌, IsTrue, IfOk, IsOk, OnOk};
ghost use Rattle.next_steps.specs.Asks.{place_of};
ghost use Rattle.next_steps.specs.Rounds.{Starting, ask_round, heard_round};
ghost use Rattle.next_rules.specs.Setups.{IsCount};
ghost use Rattle.next_actor.specs.States.{is_last};

use crate::kept::KeptEntry;
use next_collector::CollectorState;
use next_ids::{Counts, NoMemory, PlaceNo, Ts};
use next_steps::{Ask, Entry};

/// The collector, with its last number. After a step it keeps the entry until `settle` works it in; as contracts see it,
/// that was done at once.
#[derive(Drop)]
pub struct RoundState {
    collector: CollectorState,
    last: u64,
    kept: Option<KeptEntry>,
    ghost stamped: { IsTrue (is_last kept last) },
}

impl RoundState {
    ghost use Rattle.next_actor.specs.Rounds.{counts_of, phase_of, last_of, is_settled};

    /// The collector of a service with these counts, before its first round.
    pub fn new(counts: Counts) -> RoundState
        requires shards { IsCount counts.shards }
        requires stores { IsCount counts.stores }
        ensures phase { phase_of result ≡ Starting }
        ensures counts { counts_of result ≡ counts }
        ensures last { last_of result ≡ 0 }
    {
        RoundState {
            collector: CollectorState::new(counts),
            last: 0,
            kept: None,
        }
    }

    /// The collector's last number, 0 before its first step.
    pub fn last(&self) -> u64
        ensures { result ≡ last_of self.now }
    {
        self.last
    }

    /// The place of the next ask. It takes no memory.
    pub fn next_place(&self) -> PlaceNo
        requires { IsTrue (is_settled self.now) }
        ensures { result ≡ place_of (ask_round (phase_of self.now)) }
    {
        self.collector.next_place()
    }

    /// The next ask, at this moment. The Err is want of memory.
    pub fn ask(&self, moment: u64) -> Result<Ask, NoMemory>
        requires { IsTrue (is_settled self.now) }
        ensures { IfOk result (λ ask. ask ≡ ask_round (phase_of self.now)) }
    {
        self.collector.ask(Ts {
            moment,
            number: self.last,
        })
    }

    /// Takes the entry of the step that was asked; it takes no memory.
    pub fn hear(&mut self, place: PlaceNo, entry: Entry)
        requires { IsTrue (is_settled self.old) }
        ensures phase { phase_of self.new ≡ heard_round (counts_of self.old) (phase_of self.old) entry }
        ensures counts { counts_of self.new ≡ counts_of self.old }
        ensures last { last_of self.new ≡ entry.number }
    {
        self.last = entry.number;
        self.kept = Some(KeptEntry { place, entry });
    }

    /// Works a kept entry in. On Err it is still kept. The collector needs no memory where it is settled.
    pub fn settle(&mut self) -> Result<(), NoMemory>
        ensures phase { phase_of self.new ≡ phase_of self.old }
        ensures counts { counts_of self.new ≡ counts_of self.old }
        ensures last { last_of self.new ≡ last_of self.old }
        ensures settled { OnOk result (IsTrue (is_settled self.new)) }
        ensures sure { IsTrue (is_settled self.old) → IsOk result }
    {
        let Some(kept) = &self.kept else {
            return Ok(());
        };
        self.collector.hear(kept.place, &kept.entry)?;
        self.kept = None;
        Ok(())
    }
}
