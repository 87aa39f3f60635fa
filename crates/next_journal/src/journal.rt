//! How a place keeps its steps.
ghost use Rattle.std.specs.Prelude.{◌≡◌, ◌≤◌, ◌++◌, ◌∷◌, [], false, IfOk, OnOk, OnErr, length, slice_get};
ghost use Rattle.std.specs.Option.{option_copied};
ghost use Rattle.next_rules.specs.Contents.{number_after};

use next_ids::{Actor, NoMemory};
use next_steps::{Answer, Ask, Entry, LOG_LIMIT, Log, Moved, NUMBER_LIMIT};
use std::alloc::Global;

/// The entries of a place's steps, in order, and the number of the last, 0 before the first.
#[derive(Drop)]
pub struct Journal {
    log: Log,
    last: u64,
    ghost short: { length log ≤ 1048576 },
}

// The entry of a step.
fn entry_of(
    actor: Actor,
    number: u64,
    moment: u64,
    ask: &Ask,
    answer: Answer,
    moved: Option<Moved>,
) -> Result<Entry, NoMemory>
    ensures { IfOk result (λ entry. entry ≡ record { actor = actor; number = number; moment = moment; ask = ask.now; answer = answer; moved = moved }) }
{
    let ask = ask.copy()?;
    Ok(Entry {
        actor,
        number,
        moment,
        ask,
        answer,
        moved,
    })
}

// Adds a copy of the entry.
fn add_copy(log: &mut Log, entry: &Entry) -> Result<(), NoMemory>
    ensures ok { OnOk result (log.new ≡ log.old ++ entry.now ∷ []) }
    ensures err { OnErr result (log.new ≡ log.old) }
{
    log.push(entry.copy()?)
}

// Adds a copy of the entry, and hands the entry back.
fn add(log: &mut Log, entry: Entry) -> Result<Entry, NoMemory>
    ensures ok { OnOk result (log.new ≡ log.old ++ entry ∷ []) }
    ensures back { IfOk result (λ back. back ≡ entry) }
    ensures err { OnErr result (log.new ≡ log.old) }
{
    match add_copy(log, &entry) {
        Ok(()) => Ok(entry),
        Err(NoMemory) => Err(NoMemory),
    }
}

impl Journal {
    ghost use Rattle.next_journal.specs.Journals.{log_of, last_of, is_full};

    /// The journal before the first step.
    pub fn new(alloc: Global) -> Journal
        ensures log { log_of result ≡ [] }
        ensures last { last_of result ≡ 0 }
    {
        Journal {
            log: Log::new(alloc),
            last: 0,
        }
    }

    /// How many entries there are, at most 1,048,576.
    pub fn count(&self) -> usize
        ensures count { result ≡ length (log_of self.now) }
        ensures few { result ≤ 1048576 }
    {
        self.log.len()
    }

    /// The last number.
    pub fn last(&self) -> u64
        ensures { result ≡ last_of self.now }
    {
        self.last
    }

    /// The i-th entry, from 0. None comes exactly at and past the count.
    pub fn entry(&self, i: usize) -> Option<&Entry>
        ensures { option_copied result ≡ slice_get (log_of self.now) i }
    {
        self.log.get(i)
    }

    /// Whether the place makes no further step of an actor whose last number is `last`: there are 1,048,576 entries, or a
    /// last number is 2^40 or more.
    pub fn is_full(&self, last: u64) -> bool
        ensures { result ≡ is_full self.now last }
    {
        self.log.len() >= LOG_LIMIT || last.max(self.last) >= NUMBER_LIMIT
    }

    /// The number of the next step, which is of an actor whose last number is `last`.
    pub fn next_number(&self, last: u64) -> u64
        requires { is_full self.now last ≡ false }
        ensures number { result ≡ number_after last (last_of self.now) }
        ensures fits { result ≤ 1099511627776 }
    {
        last.max(self.last) + 1
    }

    /// Writes the next step, and answers its entry. On Err the journal is as before.
    pub fn write(
        &mut self,
        actor: Actor,
        last: u64,
        moment: u64,
        ask: &Ask,
        answer: Answer,
        moved: Option<Moved>,
    ) -> Result<Entry, NoMemory>
        requires { is_full self.old last ≡ false }
        ensures entry { IfOk result (λ entry. entry ≡ record { actor = actor; number = number_after last (last_of self.old); moment = moment; ask = ask.now; answer = answer; moved = moved }) }
        ensures log { IfOk result (λ entry. log_of self.new ≡ log_of self.old ++ entry ∷ []) }
        ensures last { OnOk result (last_of self.new ≡ number_after last (last_of self.old)) }
        ensures err { OnErr result (self.new ≡ self.old) }
    {
        let number = self.next_number(last);
        let entry = entry_of(actor, number, moment, ask, answer, moved)?;
        let entry = add(&mut self.log, entry)?;
        self.last = number;
        Ok(entry)
    }

    /// Takes back the last step that was written, whose entry this is, and before which the last number was `last`.
    pub fn take_back(&mut self, entry: Entry, last: u64)
        ensures { (before : _) → log_of self.old ≡ log_of before ++ entry ∷ [] → last_of before ≡ last → self.new ≡ before }
    {
        self.log.cut_last();
        self.last = last;
    }
}
