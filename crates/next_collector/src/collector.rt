//! The collector and its rounds.
ghost use Rattle.std.specs.Prelude.{◌≡◌, IfOk, OnOk, OnErr};
ghost use Rattle.next_steps.specs.Asks.{place_of};
ghost use Rattle.next_steps.specs.Rounds.{Starting, ask_round, heard_round};
ghost use Rattle.next_rules.specs.Setups.{IsCount};

use crate::visit::Visit;
use next_ids::{Counts, NoMemory, PlaceNo, Ts};
use next_steps::{Ask, Entry};

/// The collector. It does one round after the other: it asks which clients stopped, and then goes from place to place
/// and finishes what they left.
#[derive(Drop)]
pub struct CollectorState {
    counts: Counts,
    visit: Option<Visit>,
    ghost some_shards: { IsCount counts.shards },
    ghost some_stores: { IsCount counts.stores },
}

impl CollectorState {
    ghost use Rattle.next_collector.specs.Collectors.{counts_of, phase_of};

    /// The collector of a service with these counts, before its first round.
    pub fn new(counts: Counts) -> CollectorState
        requires shards { IsCount counts.shards }
        requires stores { IsCount counts.stores }
        ensures counts { counts_of result ≡ counts }
        ensures phase { phase_of result ≡ Starting }
    {
        CollectorState {
            counts,
            visit: None,
        }
    }

    /// The place of the next ask.
    pub fn next_place(&self) -> PlaceNo
        ensures { result ≡ place_of (ask_round (phase_of self.now)) }
    {
        match &self.visit {
            Some(visit) => visit.next_place(),
            None => PlaceNo(129),
        }
    }

    /// The next ask, which has no time.
    pub fn ask(&self, _last: Ts) -> Result<Ask, NoMemory>
        ensures { IfOk result (λ ask. ask ≡ ask_round (phase_of self.now)) }
    {
        match &self.visit {
            Some(visit) => visit.ask(),
            None => Ok(Ask::Stopped),
        }
    }

    /// Takes the entry of the step that was asked. On Err the collector is as before.
    pub fn hear(&mut self, _place: PlaceNo, entry: &Entry) -> Result<(), NoMemory>
        ensures ok { OnOk result (phase_of self.new ≡ heard_round (counts_of self.old) (phase_of self.old) entry.now) }
        ensures err { OnErr result (self.new ≡ self.old) }
        ensures counts { counts_of self.new ≡ counts_of self.old }
    {
        let answer = entry.answer.copy()?;
        self.visit = match self.visit.take() {
            Some(visit) => visit.after(self.counts, answer),
            None => Visit::begin(answer),
        };
        Ok(())
    }
}
