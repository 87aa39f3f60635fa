//! How the roster serves an ask.
ghost use Rattle.std.specs.Prelude.{◌≡◌, ◌≢◌, ◌↔◌, ◌++◌, ◌∷◌, [], true, IfOk, OnOk, OnErr, Err, length, slice_get};
ghost use Rattle.std.specs.Option.{option_copied};
ghost use Rattle.next_steps.specs.ClientSets.{holds};
ghost use Rattle.next_rules.specs.Contents.{entry_by, number_after};
ghost use Rattle.next_rules.specs.Desks.{serve_roster};
ghost use Rattle.next_journal.specs.Journals.{is_full};

use crate::clients::EnteredClients;
use next_ids::{Actor, Client, NoMemory};
use next_journal::Journal;
use next_steps::{Answer, Ask, ClientSet, Entry, ServeFault};
use std::alloc::Global;

/// The roster of the service, which has the clients that stopped and those that ended. Its place number is 129.
#[derive(Drop)]
pub struct Roster {
    alloc: Global,
    stopped: EnteredClients,
    ended: EnteredClients,
    journal: Journal,
}

impl Roster {
    ghost use Rattle.next_desk.specs.Rosters.{contents_of, journal_of, log_of, last_of};

    /// The roster without a client.
    pub fn new(alloc: Global) -> Roster
        ensures stopped { (contents_of result).stopped ≡ [] }
        ensures ended { (contents_of result).ended ≡ [] }
        ensures log { log_of result ≡ [] }
        ensures last { last_of result ≡ 0 }
    {
        Roster {
            alloc,
            stopped: EnteredClients::new(alloc),
            ended: EnteredClients::new(alloc),
            journal: Journal::new(alloc),
        }
    }

    /// How many entries the log has.
    pub fn count(&self) -> usize
        ensures { result ≡ length (log_of self.now) }
    {
        self.journal.count()
    }

    /// The last number, 0 before the first step.
    pub fn last(&self) -> u64
        ensures { result ≡ last_of self.now }
    {
        self.journal.last()
    }

    /// The i-th entry of the log, from 0. None comes exactly at and past the count.
    pub fn entry(&self, i: usize) -> Option<&Entry>
        ensures { option_copied result ≡ slice_get (log_of self.now) i }
    {
        self.journal.entry(i)
    }

    /// Whether the client stopped.
    pub fn has_stopped(&self, client: Client) -> bool
        ensures { result ≡ holds (contents_of self.now).stopped client }
    {
        self.stopped.has(client)
    }

    /// Whether the client ended.
    pub fn has_ended(&self, client: Client) -> bool
        ensures { result ≡ holds (contents_of self.now).ended client }
    {
        self.ended.has(client)
    }

    /// The clients that stopped, by rising number.
    pub fn stopped(&self) -> Result<ClientSet, NoMemory>
        ensures { IfOk result (λ set. set ≡ (contents_of self.now).stopped) }
    {
        self.stopped.all(self.alloc)
    }

    /// The clients that ended, by rising number.
    pub fn ended(&self) -> Result<ClientSet, NoMemory>
        ensures { IfOk result (λ set. set ≡ (contents_of self.now).ended) }
    {
        self.ended.all(self.alloc)
    }

    // What the table answers.
    fn answer(&self, ask: &Ask) -> Result<Answer, NoMemory>
        ensures { IfOk result (λ answer. answer ≡ (serve_roster (contents_of self.now) ask.now).answer) }
    {
        match ask {
            Ask::Stop { .. } | Ask::End { .. } => Ok(Answer::Done(None)),
            Ask::Stopped => Ok(Answer::Clients(self.stopped()?)),
            _ => Ok(Answer::None),
        }
    }

    // Makes the table's change.
    fn change(&mut self, ask: &Ask) -> Result<(), NoMemory>
        ensures ok { OnOk result (contents_of self.new ≡ (serve_roster (contents_of self.old) ask.now).contents) }
        ensures journal { journal_of self.new ≡ journal_of self.old }
        ensures err { OnErr result (self.new ≡ self.old) }
    {
        match ask {
            Ask::Stop { client } => self.stopped.enter(*client),
            Ask::End { client } => self.ended.enter(*client),
            _ => Ok(()),
        }
    }

    /// Serves an ask of the actor, whose last number is `last`, by the roster's table, and logs the step, which is made at
    /// the moment. LogFull comes exactly where the log has 1,048,576 entries, or a last number is 2^40 or more. On Err the
    /// roster is as before.
    pub fn serve(
        &mut self,
        actor: Actor,
        last: u64,
        moment: u64,
        ask: &Ask,
    ) -> Result<Entry, ServeFault>
        ensures entry { IfOk result (λ entry. entry ≡ entry_by actor (number_after last (last_of self.old)) moment ask.now (serve_roster (contents_of self.old) ask.now)) }
        ensures contents { OnOk result (contents_of self.new ≡ (serve_roster (contents_of self.old) ask.now).contents) }
        ensures log { IfOk result (λ entry. log_of self.new ≡ log_of self.old ++ entry ∷ []) }
        ensures last { OnOk result (last_of self.new ≡ number_after last (last_of self.old)) }
        ensures full { (result ≡ Err ServeFault.LogFull) ↔ (is_full (journal_of self.old) last ≡ true) }
        ensures ready { result ≢ Err ServeFault.NotYet }
        ensures err { OnErr result (self.new ≡ self.old) }
    {
        if self.journal.is_full(last) {
            return Err(ServeFault::LogFull);
        }
        let answer = self.answer(ask)?;
        let before = self.journal.last();
        let entry = self.journal.write(actor, last, moment, ask, answer, None)?;
        match self.change(ask) {
            Ok(()) => Ok(entry),
            Err(NoMemory) => {
                self.journal.take_back(entry, before);
                Err(ServeFault::NoMemory)
            }
        }
    }
}
