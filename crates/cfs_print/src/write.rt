//! The whole text.
ghost use Rattle.std.specs.Prelude.{OnOk, ◌≡◌};
ghost use Rattle.cfs_ids.specs.Maps.{how_many};
ghost use Rattle.std.specs.Io.KnownBytes.{Appends};
ghost use Rattle.cfs_io.specs.Causes.{HasCause};
ghost use Rattle.cfs_io.specs.Output.{AppendsFront};
ghost use Rattle.cfs_print.specs.Passing.{Adds, AddsFront};
ghost use Rattle.cfs_print.specs.NamedFiles.{AreNamed};
ghost use Rattle.cfs_print.specs.Texts.{is_call, is_unfinished, summary_of, run_lines, namespace_lines, text};

use crate::commands::put_commands;
use crate::lines::put_history;
use crate::named::NamedFiles;
use crate::output::{Page, turn_page};
use crate::printed::Printed;
use crate::summary::{Summary, put_head, put_summary};
use crate::tree::{put_tree, put_unnamed};
use cfs_history::{History, HistoryItem, Outcome};
use cfs_io::{Failed, Sink};

// How many calls there are.
#[tactic(auto, using(crate::proofs::Counts::all_calls))]
fn count_calls(history: &History) -> u64
    ensures { result ≡ how_many is_call history.now }
{
    history.len() as u64
}

// Whether the item is of a call that has no reply.
fn is_unfinished(item: &HistoryItem) -> bool
    ensures { result ≡ is_unfinished item.now }
{
    match item {
        HistoryItem::Line(line) => match &line.outcome {
            Outcome::Moved { .. } => false,
            Outcome::Reply(_) => false,
            Outcome::Unfinished(_) => true,
        },
    }
}

// How many calls have no reply.
fn count_unfinished(items: &[HistoryItem]) -> u64
    ensures { result ≡ how_many is_unfinished items.now }
{
    let mut count: u64 = 0;
    for item in items {
        if is_unfinished(item) {
            count += 1;
        }
    }
    count
}

// The counts of the run.
fn summary_of(printed: &Printed) -> Summary
    ensures { result ≡ summary_of printed.now }
{
    Summary {
        steps: printed.steps,
        calls: count_calls(&printed.history),
        unfinished: count_unfinished(printed.history.as_slice()),
        busy: 0,
        forgets: 0,
        owed: printed.tally.owed,
        debts: printed.tally.debts,
        marks: printed.tally.marks,
        strays: printed.tally.strays,
    }
}

#[tactic(auto, using(crate::proofs::Passed::passing), unfolding(crate::specs::Texts::run_lines))]
fn put_run<K: Sink>(printed: &Printed, sink: &mut K, page: &mut Page) -> Result<(), Failed>
    ensures ok { OnOk result (Adds (K.taken sink.old) page.old.items (K.taken sink.new) page.new.items (run_lines printed.now)) }
    ensures front { AddsFront (K.taken sink.old) page.old.items (K.taken sink.new) (run_lines printed.now) }
    ensures cause { HasCause (K.faults sink.old) (K.faults sink.new) result }
{
    put_commands(sink, page, printed.replies.as_slice())?;
    put_history(sink, page, printed.history.as_slice())
}

#[tactic(auto, using(crate::proofs::Passed::passing), unfolding(crate::specs::Texts::namespace_lines))]
fn put_namespace<K: Sink>(
    printed: &Printed,
    named: &NamedFiles,
    sink: &mut K,
    page: &mut Page,
) -> Result<(), Failed>
    requires { AreNamed named.now printed.now.tree }
    ensures ok { OnOk result (Adds (K.taken sink.old) page.old.items (K.taken sink.new) page.new.items (namespace_lines printed.now)) }
    ensures front { AddsFront (K.taken sink.old) page.old.items (K.taken sink.new) (namespace_lines printed.now) }
    ensures cause { HasCause (K.faults sink.old) (K.faults sink.new) result }
{
    put_tree(sink, page, &printed.tree)?;
    put_unnamed(sink, page, &printed.tree, named)
}

#[tactic(auto, using(crate::proofs::Passed::passing), unfolding(crate::specs::Texts::text))]
fn put_text<K: Sink>(
    printed: &Printed,
    named: &NamedFiles,
    sink: &mut K,
    page: &mut Page,
) -> Result<(), Failed>
    requires { AreNamed named.now printed.now.tree }
    ensures ok { OnOk result (Adds (K.taken sink.old) page.old.items (K.taken sink.new) page.new.items (text printed.now)) }
    ensures front { AddsFront (K.taken sink.old) page.old.items (K.taken sink.new) (text printed.now) }
    ensures cause { HasCause (K.faults sink.old) (K.faults sink.new) result }
{
    put_head(sink, page, printed.shards, printed.stores)?;
    put_run(printed, sink, page)?;
    put_namespace(printed, named, sink, page)?;
    put_summary(sink, page, &summary_of(printed))
}

/// Writes the text of the run; `named` are the files that the tree's lists name. After `Failed` a front of the text was
/// taken. It takes no memory, and asks the sink once for some 4,096 bytes.
#[tactic(auto, using(crate::proofs::Passed::handing))]
pub fn write_run<K: Sink>(printed: &Printed, named: &NamedFiles, sink: &mut K) -> Result<(), Failed>
    requires { AreNamed named.now printed.now.tree }
    ensures ok { OnOk result (Appends (K.taken sink.old) (K.taken sink.new) (text printed.now)) }
    ensures front { AppendsFront (K.taken sink.old) (K.taken sink.new) (text printed.now) }
    ensures cause { HasCause (K.faults sink.old) (K.faults sink.new) result }
{
    let mut page = Page::new();
    put_text(printed, named, sink, &mut page)?;
    turn_page(sink, &mut page)
}
