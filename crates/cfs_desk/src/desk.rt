//! How the desk serves an ask.
ghost use Rattle.std.specs.Prelude.{◌≡◌, ◌↔◌, ◌<◌, ◌+◌, ◌++◌, ◌∷◌, [], true, IfOk, IsOk, OnOk, OnErr, Err, length, slice_get};
ghost use Rattle.std.specs.Option.{option_copied};
ghost use Rattle.cfs_rules.specs.Places.{serve_desk, entry_by, number_after, is_full};
ghost use Rattle.cfs_desk.specs.Desks.{log_of, last_of};

use cfs_ids::{Actor, NoMemory, Ts, later, number_of};
use cfs_steps::{Answer, Ask, Entry, LOG_LIMIT, Log, NUMBER_LIMIT, ServeFault};
use std::alloc::Global;

/// The desk of the service. Its place number is 128. No ask changes it yet.
#[derive(Drop)]
pub struct Desk {
    log: Log,
    last: u64,
}

impl Desk {
    /// The desk before its first step. It takes no memory.
    pub fn new(alloc: Global) -> Result<Desk, NoMemory>
        ensures sure { IsOk result }
        ensures log { IfOk result (λ desk. log_of desk ≡ []) }
        ensures last { IfOk result (λ desk. last_of desk ≡ 0) }
    {
        Ok(Desk {
            log: Log::new(alloc),
            last: 0,
        })
    }

    /// How many entries the log has.
    pub fn count(&self) -> usize
        ensures { result ≡ length (log_of self.now) }
    {
        self.log.len()
    }

    /// The last number, 0 before the first step.
    pub fn last(&self) -> u64
        ensures { result ≡ last_of self.now }
    {
        self.last
    }

    /// The i-th entry of the log, from 0. None comes exactly at and past the count.
    pub fn entry(&self, i: usize) -> Option<&Entry>
        ensures { option_copied result ≡ slice_get (log_of self.now) i }
    {
        self.log.get(i)
    }

    // Whether the desk serves nothing more.
    fn is_full(&self, last: Ts) -> bool
        ensures { result ≡ is_full (length (log_of self.now)) last (last_of self.now) }
    {
        self.log.len() >= LOG_LIMIT || number_of(later(last, self.last)) >= NUMBER_LIMIT
    }

    /// Serves an ask of the actor, whose last number is `last`, by the desk's table, and logs the step. LogFull comes
    /// exactly where the log has 1,048,576 entries, or a last number is 2^40 or more. On Err the desk is as before.
    pub fn serve(&mut self, actor: Actor, last: Ts, ask: &Ask) -> Result<Entry, ServeFault>
        ensures entry { IfOk result (λ entry. entry ≡ entry_by actor (number_after last (last_of self.old)) ask.now (serve_desk ask.now)) }
        ensures log { IfOk result (λ entry. log_of self.new ≡ log_of self.old ++ entry ∷ []) }
        ensures last { OnOk result (last_of self.new ≡ number_after last (last_of self.old)) }
        ensures full { (result ≡ Err ServeFault.LogFull) ↔ (is_full (length (log_of self.old)) last (last_of self.old) ≡ true) }
        ensures err { OnErr result (self.new ≡ self.old) }
    {
        if self.is_full(last) {
            return Err(ServeFault::LogFull);
        }
        let number = number_of(later(last, self.last)) + 1;
        let entry = Entry {
            actor,
            number,
            ask: ask.copy()?,
            answer: Answer::None,
            moved: None,
        };
        self.log.push(entry.copy()?)?;
        self.last = number;
        Ok(entry)
    }
}
