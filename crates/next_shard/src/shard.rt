//! How a shard serves an ask.
ghost use Rattle.std.specs.Prelude.{◌≡◌, ◌≢◌, ◌↔◌, ◌<◌, ◌++◌, ◌∷◌, [], true, IfOk, IsOk, OnOk, OnErr, Err, length, slice_get};
ghost use Rattle.std.specs.Option.{option_copied, option_map};
ghost use Rattle.std.specs.Ordering.{nat_cmp};
ghost use Rattle.std.specs.Cmp.Lexicographic.{slice_cmp};
ghost use Rattle.std.specs.FinMap as map;
ghost use Rattle.std.proofs.Props.{props};
ghost use Rattle.next_ids.specs.declared.ids.DirId.{DirId};
ghost use Rattle.next_ids.specs.Maps.{row_key};
ghost use Rattle.next_steps.specs.Asks.{place_of as asked_of};
ghost use Rattle.next_maps.specs.Walks.{entries_after, first_of};
ghost use Rattle.next_rules.specs.Contents.{opening_part, entry_by, number_after, debt_key};
ghost use Rattle.next_rules.specs.Facts.{SumsHold, CountsHold};
ghost use Rattle.next_rules.specs.Homes.{IsOwnShard};
ghost use Rattle.next_rules.specs.Places.{serve_shard};
ghost use Rattle.next_contents.specs.Shown as held;
ghost use Rattle.next_journal.specs.Journals.{log_of as written, last_of as last_written, is_full};
ghost use Rattle.next_laws_shard.specs.Bounds.{IsKnown, IsWithin};

use next_changes::make;
use next_contents::Contents;
use next_ids::{Actor, DirId, Name, NoMemory, Node, Stamp};
use next_journal::Journal;
use next_lines::line_of;
use next_steps::{Ask, Debt, DirRec, Entry, Row, RowLock, ServeFault};
use std::alloc::Global;

/// A shard of the service. Its place number is its index.
#[derive(Drop)]
pub struct Shard {
    alloc: Global,
    contents: Contents,
    journal: Journal,
    ghost small: { (held.place_of contents).0 < 64 },
    ghost own: { IsOwnShard (held.place_of contents).0 (held.contents_of contents) } by { Prim.hlevel props },
    ghost known: { IsKnown (last_written journal) (held.contents_of contents) } by { Prim.hlevel props },
    ghost sums: { SumsHold (held.contents_of contents) } by { Prim.hlevel props },
    ghost within: { IsWithin (length (written journal)) (held.contents_of contents) } by { Prim.hlevel props },
}

impl Shard {
    ghost use Rattle.next_shard.specs.Shards.{contents_of, journal_of, log_of, last_of, index_of, shows};

    /// The shard with this index, below 64, as the service opens: shard 0 has the root's record; the others have nothing, and
    /// take no memory.
    pub fn new(alloc: Global, index: u32) -> Result<Shard, NoMemory>
        requires { index < 64 }
        ensures sure { index ≢ 0 → IsOk result }
        ensures contents { IfOk result (λ shard. contents_of shard ≡ opening_part index) }
        ensures log { IfOk result (λ shard. log_of shard ≡ []) }
        ensures last { IfOk result (λ shard. last_of shard ≡ 0) }
        ensures index { IfOk result (λ shard. index_of shard ≡ index) }
    {
        let contents = Contents::new(alloc, index)?;
        Ok(Shard {
            alloc,
            contents,
            journal: Journal::new(alloc),
        })
    }

    /// What the shard holds.
    pub fn contents(&self) -> &Contents
        ensures { held.contents_of result.now ≡ contents_of self.now }
    {
        &self.contents
    }

    /// How many entries the log has.
    pub fn count(&self) -> usize
        ensures { result ≡ length (log_of self.now) }
    {
        self.journal.count()
    }

    /// The last number, 0 before the first step.
    pub fn last(&self) -> u64
        ensures { result ≡ last_of self.now }
    {
        self.journal.last()
    }

    /// The i-th entry of the log, from 0. None comes exactly at and past the count.
    pub fn entry(&self, i: usize) -> Option<&Entry>
        ensures { option_copied result ≡ slice_get (log_of self.now) i }
    {
        self.journal.entry(i)
    }

    /// The record of the directory. None comes exactly where there is no such record.
    pub fn rec(&self, dir: DirId) -> Option<&DirRec>
        ensures { option_copied result ≡ map.get (contents_of self.now).recs dir.0 }
    {
        self.contents.rec(dir)
    }

    /// The first row above the name of the directory, or the first of all: by rising directories, and in each by rising
    /// names. None comes exactly where there is no such row.
    pub fn next_row(&self, after: Option<(DirId, &Name)>) -> Option<(DirId, &Name, &Row)>
        ensures { option_map (λ entry. (row_key entry.0 entry.1.now, entry.2.now)) result ≡ first_of (entries_after (slice_cmp nat_cmp) (option_map (λ place. row_key place.0 place.1.now) after.entry) (map.entries (contents_of self.now).rows)) }
    {
        self.contents.next_row(after)
    }

    /// The first lock above the name of the directory, or the first of all: by rising directories, and in each by rising
    /// names. None comes exactly where there is no such lock.
    pub fn next_lock(&self, after: Option<(DirId, &Name)>) -> Option<(DirId, &Name, &RowLock)>
        ensures { option_map (λ entry. (row_key entry.0 entry.1.now, entry.2.now)) result ≡ first_of (entries_after (slice_cmp nat_cmp) (option_map (λ place. row_key place.0 place.1.now) after.entry) (map.entries (contents_of self.now).locks)) }
    {
        self.contents.next_lock(after)
    }

    /// The first record above `after`, or the first of all. None comes exactly where there is none.
    pub fn next_rec(&self, after: Option<DirId>) -> Option<(DirId, &DirRec)>
        ensures { option_map (λ entry. (entry.0.0, entry.1.now)) result ≡ first_of (entries_after nat_cmp (option_map (λ (dir : DirId). dir.0) after) (map.entries (contents_of self.now).recs)) }
    {
        self.contents.next_rec(after)
    }

    /// The first debt above that of the node, or the first of all: files before directories, and each by rising numbers.
    /// None comes exactly where there is none.
    pub fn next_debt(&self, after: Option<Node>) -> Option<(Node, Debt)>
        ensures { option_map (λ e. (debt_key (record { 0 = index_of self.now }) e.0, e.1)) result ≡ first_of (entries_after (slice_cmp nat_cmp) (option_map (debt_key (record { 0 = index_of self.now })) after) (map.entries (contents_of self.now).debts)) }
    {
        self.contents.next_debt(after)
    }

    /// Serves an ask of the actor, whose last number is `last`, by the shard's table, and logs the step, which is made
    /// at the moment. The ask's place is to be this shard. LogFull comes exactly where the log has 1,048,576 entries, or a
    /// last number is 2^40 or more. On Err the shard is as before.
    pub fn serve(
        &mut self,
        actor: Actor,
        last: u64,
        moment: u64,
        ask: &Ask,
    ) -> Result<Entry, ServeFault>
        requires here { (asked_of ask.now).0 ≡ index_of self.old }
        ensures entry { let number = number_after last (last_of self.old) in IfOk result (λ entry. entry ≡ entry_by actor number moment ask.now (serve_shard (contents_of self.old) (record { number = number; place = record { 0 = index_of self.old } }) moment ask.now)) }
        ensures contents { let number = number_after last (last_of self.old) in OnOk result (contents_of self.new ≡ (serve_shard (contents_of self.old) (record { number = number; place = record { 0 = index_of self.old } }) moment ask.now).contents) }
        ensures log { IfOk result (λ entry. log_of self.new ≡ log_of self.old ++ entry ∷ []) }
        ensures last { OnOk result (last_of self.new ≡ number_after last (last_of self.old)) }
        ensures full { (result ≡ Err ServeFault.LogFull) ↔ (is_full (journal_of self.old) last ≡ true) }
        ensures ready { result ≢ Err ServeFault.NotYet }
        ensures err { OnErr result (shows self.new ≡ shows self.old) }
        ensures index { index_of self.new ≡ index_of self.old }
        ensures counts { CountsHold (contents_of self.new) }
    {
        if self.journal.is_full(last) {
            return Err(ServeFault::LogFull);
        }
        let at = Stamp {
            number: self.journal.next_number(last),
            place: self.contents.place(),
        };
        let line = line_of(self.alloc, &self.contents, at, moment, ask)?;
        let before = self.journal.last();
        let entry = self
            .journal
            .write(actor, last, moment, ask, line.answer, line.moved)?;
        match make(&mut self.contents, at, line.change) {
            Ok(()) => Ok(entry),
            Err(NoMemory) => {
                self.journal.take_back(entry, before);
                Err(ServeFault::NoMemory)
            }
        }
    }
}
