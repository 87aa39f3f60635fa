//! The whole text.
ghost use Rattle.std.specs.Prelude.{OnOk, ◌≡◌};
ghost use Rattle.next_ids.specs.Maps.{how_many};
ghost use Rattle.std.specs.Io.KnownBytes.{Appends};
ghost use Rattle.next_io.specs.Causes.{HasCause};
ghost use Rattle.next_io.specs.Output.{AppendsFront};
ghost use Rattle.next_print.specs.Passing.{Adds, AddsFront};
ghost use Rattle.next_print.specs.NamedFiles.{AreNamed};
ghost use Rattle.next_print.specs.Texts.{is_call, is_forget, is_busy, is_busy_reply, is_unfinished, summary_of, run_lines, namespace_lines, text};

use crate::commands::put_commands;
use crate::lines::put_history;
use crate::named::NamedFiles;
use crate::output::{Page, turn_page};
use crate::printed::Printed;
use crate::summary::{Summary, put_head, put_summary};
use crate::tree::{put_tree, put_unnamed};
use next_history::{HistoryItem, Outcome};
use next_ids::Reply;
use next_io::{Failed, Sink};

// Whether the item is the line of a call.
fn is_call(item: &HistoryItem) -> bool
    ensures { result ≡ is_call item.now }
{
    match item {
        HistoryItem::Line(_) => true,
        HistoryItem::Forget { .. } => false,
    }
}

// How many calls there are.
fn count_calls(items: &[HistoryItem]) -> u64
    ensures { result ≡ how_many is_call items.now }
{
    let mut count: u64 = 0;
    for item in items {
        if is_call(item) {
            count += 1;
        }
    }
    count
}

// Whether the item is a forgotten file.
fn is_forget(item: &HistoryItem) -> bool
    ensures { result ≡ is_forget item.now }
{
    match item {
        HistoryItem::Line(_) => false,
        HistoryItem::Forget { .. } => true,
    }
}

// How many files were forgotten.
fn count_forgets(items: &[HistoryItem]) -> u64
    ensures { result ≡ how_many is_forget items.now }
{
    let mut count: u64 = 0;
    for item in items {
        if is_forget(item) {
            count += 1;
        }
    }
    count
}

// Whether the reply tells of a lock in the way.
fn is_busy_reply(reply: &Reply) -> bool
    ensures { result ≡ is_busy_reply reply.now }
{
    match reply {
        Reply::Moved => false,
        Reply::Kept => false,
        Reply::Node(_) => false,
        Reply::Rows(_) => false,
        Reply::DirStat { .. } => false,
        Reply::FileStat { .. } => false,
        Reply::Refused(_) => false,
        Reply::Busy(_) => true,
    }
}

// Whether the item is of a call that was answered busy.
fn is_busy(item: &HistoryItem) -> bool
    ensures { result ≡ is_busy item.now }
{
    match item {
        HistoryItem::Line(line) => match &line.outcome {
            Outcome::Moved { .. } => false,
            Outcome::Reply(reply) => is_busy_reply(reply),
            Outcome::Unfinished(_) => false,
        },
        HistoryItem::Forget { .. } => false,
    }
}

// How many calls were answered busy.
fn count_busy(items: &[HistoryItem]) -> u64
    ensures { result ≡ how_many is_busy items.now }
{
    let mut count: u64 = 0;
    for item in items {
        if is_busy(item) {
            count += 1;
        }
    }
    count
}

// Whether the item is of a call that has no reply.
fn is_unfinished(item: &HistoryItem) -> bool
    ensures { result ≡ is_unfinished item.now }
{
    match item {
        HistoryItem::Line(line) => match &line.outcome {
            Outcome::Moved { .. } => false,
            Outcome::Reply(_) => false,
            Outcome::Unfinished(_) => true,
        },
        HistoryItem::Forget { .. } => false,
    }
}

// How many calls have no reply.
fn count_unfinished(items: &[HistoryItem]) -> u64
    ensures { result ≡ how_many is_unfinished items.now }
{
    let mut count: u64 = 0;
    for item in items {
        if is_unfinished(item) {
            count += 1;
        }
    }
    count
}

// The counts of the run.
fn summary_of(printed: &Printed) -> Summary
    ensures { result ≡ summary_of printed.now }
{
    Summary {
        steps: printed.steps,
        calls: count_calls(printed.history.as_slice()),
        unfinished: count_unfinished(printed.history.as_slice()),
        busy: count_busy(printed.history.as_slice()),
        forgets: count_forgets(printed.history.as_slice()),
        owed: printed.tally.owed,
        debts: printed.tally.debts,
        marks: printed.tally.marks,
        strays: printed.tally.strays,
    }
}

#[tactic(auto, using(crate::proofs::Passed::passing), unfolding(crate::specs::Texts::run_lines))]
fn put_run<K: Sink>(printed: &Printed, sink: &mut K, page: &mut Page) -> Result<(), Failed>
    ensures ok { OnOk result (Adds (K.taken sink.old) page.old.items (K.taken sink.new) page.new.items (run_lines printed.now)) }
    ensures front { AddsFront (K.taken sink.old) page.old.items (K.taken sink.new) (run_lines printed.now) }
    ensures cause { HasCause (K.faults sink.old) (K.faults sink.new) result }
{
    put_commands(sink, page, printed.replies.as_slice())?;
    put_history(sink, page, printed.history.as_slice())
}

#[tactic(auto, using(crate::proofs::Passed::passing), unfolding(crate::specs::Texts::namespace_lines))]
fn put_namespace<K: Sink>(
    printed: &Printed,
    named: &NamedFiles,
    sink: &mut K,
    page: &mut Page,
) -> Result<(), Failed>
    requires { AreNamed named.now printed.now.tree }
    ensures ok { OnOk result (Adds (K.taken sink.old) page.old.items (K.taken sink.new) page.new.items (namespace_lines printed.now)) }
    ensures front { AddsFront (K.taken sink.old) page.old.items (K.taken sink.new) (namespace_lines printed.now) }
    ensures cause { HasCause (K.faults sink.old) (K.faults sink.new) result }
{
    put_tree(sink, page, &printed.tree)?;
    put_unnamed(sink, page, &printed.tree, named)
}

#[tactic(auto, using(crate::proofs::Passed::passing), unfolding(crate::specs::Texts::text))]
fn put_text<K: Sink>(
    printed: &Printed,
    named: &NamedFiles,
    sink: &mut K,
    page: &mut Page,
) -> Result<(), Failed>
    requires { AreNamed named.now printed.now.tree }
    ensures ok { OnOk result (Adds (K.taken sink.old) page.old.items (K.taken sink.new) page.new.items (text printed.now)) }
    ensures front { AddsFront (K.taken sink.old) page.old.items (K.taken sink.new) (text printed.now) }
    ensures cause { HasCause (K.faults sink.old) (K.faults sink.new) result }
{
    put_head(sink, page, printed.shards, printed.stores)?;
    put_run(printed, sink, page)?;
    put_namespace(printed, named, sink, page)?;
    put_summary(sink, page, &summary_of(printed))
}

/// Writes the text of the run; `named` are the files that the tree's lists name. After `Failed` a front of the text was
/// taken. It takes no memory, and asks the sink once for some 4,096 bytes.
#[tactic(auto, using(crate::proofs::Passed::handing))]
pub fn write_run<K: Sink>(printed: &Printed, named: &NamedFiles, sink: &mut K) -> Result<(), Failed>
    requires { AreNamed named.now printed.now.tree }
    ensures ok { OnOk result (Appends (K.taken sink.old) (K.taken sink.new) (text printed.now)) }
    ensures front { AppendsFront (K.taken sink.old) (K.taken sink.new) (text printed.now) }
    ensures cause { HasCause (K.faults sink.old) (K.faults sink.new) result }
{
    let mut page = Page::new();
    put_text(printed, named, sink, &mut page)?;
    turn_page(sink, &mut page)
}
