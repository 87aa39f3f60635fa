//! How the desk serves an ask.
ghost use Rattle.std.specs.Prelude.{◌≡◌, ◌≢◌, ◌↔◌, ◌++◌, ◌∷◌, [], true, false, IfOk, OnOk, OnErr, Err, Some, None, length, slice_get};
ghost use Rattle.std.specs.Option.{option_copied, option_map};
ghost use Rattle.next_steps.specs.declared.entry.Entry.{Entry};
ghost use Rattle.next_rules.specs.Contents.{entry_by, number_after};
ghost use Rattle.next_rules.specs.Desks.{serve_desk, job_numbered};
ghost use Rattle.next_journal.specs.Journals.{is_full};
ghost use Rattle.next_desk.specs.Desks.{contents_of, journal_of, log_of, last_of};

use crate::jobs::{line_of, make};
use crate::queue::JobQueue;
use next_ids::{Actor, JobNo, NoMemory};
use next_journal::Journal;
use next_steps::{Ask, Entry, Job, ServeFault};
use std::alloc::Global;

/// The desk of the service, which has the renames that clients handed to the Renamer. Its place number is 128.
#[derive(Drop)]
pub struct Desk {
    jobs: JobQueue,
    journal: Journal,
}

impl Desk {
    /// The desk without a job.
    pub fn new(alloc: Global) -> Desk
        ensures contents { contents_of result ≡ [] }
        ensures log { log_of result ≡ [] }
        ensures last { last_of result ≡ 0 }
    {
        Desk {
            jobs: JobQueue::new(alloc),
            journal: Journal::new(alloc),
        }
    }

    /// How many entries the log has.
    pub fn count(&self) -> usize
        ensures { result ≡ length (log_of self.now) }
    {
        self.journal.count()
    }

    /// The last number, 0 before the first step.
    pub fn last(&self) -> u64
        ensures { result ≡ last_of self.now }
    {
        self.journal.last()
    }

    /// The i-th entry of the log, from 0. None comes exactly at and past the count.
    pub fn entry(&self, i: usize) -> Option<&Entry>
        ensures { option_copied result ≡ slice_get (log_of self.now) i }
    {
        self.journal.entry(i)
    }

    /// How many jobs were handed in. They have the numbers from 1 to this.
    pub fn jobs(&self) -> usize
        ensures { result ≡ length (contents_of self.now) }
    {
        self.jobs.len()
    }

    /// The job with the number. None comes exactly where there is none.
    pub fn job(&self, job: JobNo) -> Option<&Job>
        ensures { option_copied result ≡ job_numbered job.0 (contents_of self.now) }
    {
        self.jobs.numbered(job)
    }

    /// Serves an ask of the actor, whose last number is `last`, by the desk's table, and logs the step, which is made at
    /// the moment. LogFull comes exactly where the log has 1,048,576 entries, or a last number is 2^40 or more; else NotYet
    /// exactly where no job waits, or the job has no answer. On Err the desk is as before.
    pub fn serve(
        &mut self,
        actor: Actor,
        last: u64,
        moment: u64,
        ask: &Ask,
    ) -> Result<Entry, ServeFault>
        ensures entry { IfOk result (λ entry. Some entry ≡ option_map (entry_by actor (number_after last (last_of self.old)) moment ask.now) (serve_desk (contents_of self.old) ask.now)) }
        ensures contents { OnOk result (Some (contents_of self.new) ≡ option_map (λ served. served.contents) (serve_desk (contents_of self.old) ask.now)) }
        ensures log { IfOk result (λ entry. log_of self.new ≡ log_of self.old ++ entry ∷ []) }
        ensures last { OnOk result (last_of self.new ≡ number_after last (last_of self.old)) }
        ensures full { (result ≡ Err ServeFault.LogFull) ↔ (is_full (journal_of self.old) last ≡ true) }
        ensures not_yet { (result ≡ Err ServeFault.NotYet) ↔ ((is_full (journal_of self.old) last ≡ false) × (serve_desk (contents_of self.old) ask.now ≡ None)) }
        ensures err { OnErr result (self.new ≡ self.old) }
    {
        if self.journal.is_full(last) {
            return Err(ServeFault::LogFull);
        }
        let line = line_of(&self.jobs, ask)?;
        let before = self.journal.last();
        let entry = self
            .journal
            .write(actor, last, moment, ask, line.answer, None)?;
        match make(&mut self.jobs, line.change) {
            Ok(()) => Ok(entry),
            Err(NoMemory) => {
                self.journal.take_back(entry, before);
                Err(ServeFault::NoMemory)
            }
        }
    }
}
