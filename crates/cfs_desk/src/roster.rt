//! How the roster serves an ask.
ghost use Rattle.std.specs.Prelude.{◌≡◌, ◌↔◌, ◌<◌, ◌+◌, ◌++◌, ◌∷◌, [], true, IfOk, IsOk, OnOk, OnErr, Err, length, slice_get};
ghost use Rattle.std.specs.Option.{option_copied};
ghost use Rattle.cfs_rules.specs.Places.{serve_roster, entry_by, number_after, is_full};
ghost use Rattle.cfs_rules.specs.Trees.{has_ended};
ghost use Rattle.cfs_desk.specs.Rosters.{contents_of, log_of, last_of};

use crate::clients::EnteredClients;
use cfs_ids::{Actor, Client, NoMemory, Ts, later, number_of};
use cfs_steps::{Answer, Ask, Entry, LOG_LIMIT, Log, NUMBER_LIMIT, ServeFault};
use std::alloc::Global;

/// The roster of the service. Its place number is 129.
#[derive(Drop)]
pub struct Roster {
    ended: EnteredClients,
    log: Log,
    last: u64,
}

// What the table answers.
fn answer(ask: &Ask) -> Answer
    ensures { (roster : _) → result ≡ (serve_roster roster ask.now).answer }
{
    match ask {
        Ask::End { .. } => Answer::Done(None),
        _ => Answer::None,
    }
}

// Makes the table's change.
fn change(ended: &mut EnteredClients, ask: &Ask) -> Result<(), NoMemory>
    ensures ok { OnOk result (ended.new ≡ (serve_roster ended.old ask.now).contents) }
    ensures err { OnErr result (ended.new ≡ ended.old) }
{
    match ask {
        Ask::End { client } => ended.push(*client),
        _ => Ok(()),
    }
}

impl Roster {
    /// The roster without a client. It takes no memory.
    pub fn new(alloc: Global) -> Result<Roster, NoMemory>
        ensures sure { IsOk result }
        ensures contents { IfOk result (λ roster. contents_of roster ≡ []) }
        ensures log { IfOk result (λ roster. log_of roster ≡ []) }
        ensures last { IfOk result (λ roster. last_of roster ≡ 0) }
    {
        Ok(Roster {
            ended: EnteredClients::new(alloc),
            log: Log::new(alloc),
            last: 0,
        })
    }

    /// How many entries the log has.
    pub fn count(&self) -> usize
        ensures { result ≡ length (log_of self.now) }
    {
        self.log.len()
    }

    /// The last number, 0 before the first step.
    pub fn last(&self) -> u64
        ensures { result ≡ last_of self.now }
    {
        self.last
    }

    /// The i-th entry of the log, from 0. None comes exactly at and past the count.
    pub fn entry(&self, i: usize) -> Option<&Entry>
        ensures { option_copied result ≡ slice_get (log_of self.now) i }
    {
        self.log.get(i)
    }

    /// Whether the client is entered as ended.
    pub fn has_ended(&self, client: Client) -> bool
        ensures { result ≡ has_ended (contents_of self.now) client }
    {
        self.ended.contains(client)
    }

    // Whether the roster serves nothing more.
    fn is_full(&self, last: Ts) -> bool
        ensures { result ≡ is_full (length (log_of self.now)) last (last_of self.now) }
    {
        self.log.len() >= LOG_LIMIT || number_of(later(last, self.last)) >= NUMBER_LIMIT
    }

    /// Serves an ask of the actor, whose last number is `last`, by the roster's table, and logs the step. LogFull comes
    /// exactly where the log has 1,048,576 entries, or a last number is 2^40 or more. On Err the roster is as before.
    pub fn serve(&mut self, actor: Actor, last: Ts, ask: &Ask) -> Result<Entry, ServeFault>
        ensures entry { IfOk result (λ entry. entry ≡ entry_by actor (number_after last (last_of self.old)) ask.now (serve_roster (contents_of self.old) ask.now)) }
        ensures contents { OnOk result (contents_of self.new ≡ (serve_roster (contents_of self.old) ask.now).contents) }
        ensures log { IfOk result (λ entry. log_of self.new ≡ log_of self.old ++ entry ∷ []) }
        ensures last { OnOk result (last_of self.new ≡ number_after last (last_of self.old)) }
        ensures full { (result ≡ Err ServeFault.LogFull) ↔ (is_full (length (log_of self.old)) last (last_of self.old) ≡ true) }
        ensures err { OnErr result (self.new ≡ self.old) }
    {
        if self.is_full(last) {
            return Err(ServeFault::LogFull);
        }
        let number = number_of(later(last, self.last)) + 1;
        let entry = Entry {
            actor,
            number,
            ask: ask.copy()?,
            answer: answer(ask),
            moved: None,
        };
        self.log.push(entry.copy()?)?;
        match change(&mut self.ended, ask) {
            Ok(()) => {
                self.last = number;
                Ok(entry)
            }
            Err(NoMemory) => {
                self.log.cut_last();
                Err(ServeFault::NoMemory)
            }
        }
    }
}
