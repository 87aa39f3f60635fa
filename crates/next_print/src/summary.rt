//! The first lines and the last.
ghost use Rattle.std.specs.Prelude.{OnOk};
ghost use Rattle.next_io.specs.Causes.{HasCause};
ghost use Rattle.next_print.specs.Passing.{Adds, AddsFront};
ghost use Rattle.next_print.specs.Summaries.{head_lines, run_counts, left_counts, summary_line};

use crate::output::{Page, Piece, put_all};
use Piece::{Number, Text};
use next_io::{Failed, Sink};

/// The counts of a run: its steps, its calls, of these the unfinished and the busy ones, what was forgotten, and what
/// it left behind: owed files, debts, marks and strays.
#[derive(Clone, Copy, Debug, PartialEq, Eq)]
pub(crate) struct Summary {
    pub steps: u64,
    pub calls: u64,
    pub unfinished: u64,
    pub busy: u64,
    pub forgets: u64,
    pub owed: u64,
    pub debts: u64,
    pub marks: u64,
    pub strays: u64,
}

/// Writes the name of the format and the counts of places. After `Failed` a front of it was taken.
#[tactic(auto, using(crate::proofs::Passed::passing), unfolding(crate::specs::Summaries::head_lines))]
pub(crate) fn put_head<K: Sink>(
    sink: &mut K,
    page: &mut Page,
    shards: u32,
    stores: u32,
) -> Result<(), Failed>
    ensures ok { OnOk result (Adds (K.taken sink.old) page.old.items (K.taken sink.new) page.new.items (head_lines shards stores)) }
    ensures front { AddsFront (K.taken sink.old) page.old.items (K.taken sink.new) (head_lines shards stores) }
    ensures cause { HasCause (K.faults sink.old) (K.faults sink.new) result }
{
    let shards = shards as u64;
    let stores = stores as u64;
    put_all(
        sink,
        page,
        &[
            Text(b"cfs 1\nplaces "),
            Number(shards),
            Text(b" "),
            Number(stores),
            Text(b"\n"),
        ],
    )
}

#[tactic(auto, using(crate::proofs::Passed::passing), unfolding(crate::specs::Summaries::run_counts))]
fn put_run_counts<K: Sink>(sink: &mut K, page: &mut Page, summary: &Summary) -> Result<(), Failed>
    ensures ok { OnOk result (Adds (K.taken sink.old) page.old.items (K.taken sink.new) page.new.items (run_counts summary.now)) }
    ensures front { AddsFront (K.taken sink.old) page.old.items (K.taken sink.new) (run_counts summary.now) }
    ensures cause { HasCause (K.faults sink.old) (K.faults sink.new) result }
{
    put_all(
        sink,
        page,
        &[
            Text(b"s steps="),
            Number(summary.steps),
            Text(b" calls="),
            Number(summary.calls),
            Text(b" unfinished="),
            Number(summary.unfinished),
            Text(b" busy="),
            Number(summary.busy),
        ],
    )
}

#[tactic(auto, using(crate::proofs::Passed::passing), unfolding(crate::specs::Summaries::left_counts))]
fn put_left_counts<K: Sink>(sink: &mut K, page: &mut Page, summary: &Summary) -> Result<(), Failed>
    ensures ok { OnOk result (Adds (K.taken sink.old) page.old.items (K.taken sink.new) page.new.items (left_counts summary.now)) }
    ensures front { AddsFront (K.taken sink.old) page.old.items (K.taken sink.new) (left_counts summary.now) }
    ensures cause { HasCause (K.faults sink.old) (K.faults sink.new) result }
{
    put_all(
        sink,
        page,
        &[
            Text(b" forgets="),
            Number(summary.forgets),
            Text(b" owed="),
            Number(summary.owed),
            Text(b" debts="),
            Number(summary.debts),
            Text(b" marks="),
            Number(summary.marks),
            Text(b" strays="),
            Number(summary.strays),
            Text(b"\n"),
        ],
    )
}

/// Writes the last line. After `Failed` a front of it was taken.
#[tactic(auto, using(crate::proofs::Passed::passing), unfolding(crate::specs::Summaries::summary_line))]
pub(crate) fn put_summary<K: Sink>(
    sink: &mut K,
    page: &mut Page,
    summary: &Summary,
) -> Result<(), Failed>
    ensures ok { OnOk result (Adds (K.taken sink.old) page.old.items (K.taken sink.new) page.new.items (summary_line summary.now)) }
    ensures front { AddsFront (K.taken sink.old) page.old.items (K.taken sink.new) (summary_line summary.now) }
    ensures cause { HasCause (K.faults sink.old) (K.faults sink.new) result }
{
    put_run_counts(sink, page, summary)?;
    put_left_counts(sink, page, summary)
}
