//! Lists that no run copies or reads one by one.
use crate::calls::{Told, reply_of};
use cfs_history::{CallList, EntryList, History, HistoryItem, Line, Outcome};
use cfs_ids::{Actor, At, Call, Client, DirId, PlaceNo, Reply, Stamp};
use cfs_print::{CommandReply, ReplyTable};
use cfs_steps::{Answer, Ask, CallDone, Entry};
use cfs_walk::{Command, CommandList, Component, Path};
use std::alloc::Global;
use std::test::Fail;

const STEP: Stamp = Stamp {
    number: 9,
    place: PlaceNo(0),
};

fn one_call(alloc: Global) -> Result<CallList, Fail> {
    let mut calls = CallList::new(alloc);
    let call = CallDone {
        call: Call::List { dir: DirId(0) },
        first: STEP,
        at: At::Before(STEP),
        last: STEP,
        reply: Reply::Moved,
        ts: 0,
        made: None,
    };
    calls.push(call)?;
    Ok(calls)
}

fn one_entry(alloc: Global) -> Result<EntryList, Fail> {
    let mut entries = EntryList::new(alloc);
    let client = Client(2);
    let entry = Entry {
        actor: Actor::Client(client),
        number: 4,
        ask: Ask::End { client },
        answer: Answer::Done(None),
        moved: None,
    };
    entries.push((PlaceNo(129), entry))?;
    Ok(entries)
}

fn one_line(alloc: Global) -> Result<History, Fail> {
    let mut history = History::new(alloc);
    let line = Line {
        client: Client(2),
        call: Call::List { dir: DirId(0) },
        first: 8,
        at: None,
        last: None,
        outcome: Outcome::Unfinished(None),
    };
    history.push(HistoryItem::Line(line))?;
    Ok(history)
}

// The number of the first call's last step, or 0.
fn last_of(calls: &CallList) -> u64 {
    match calls.get(0) {
        Some(call) => call.last.number,
        None => 0,
    }
}

// The number of the first entry, or 0.
fn number_of(entries: &EntryList) -> u64 {
    match entries.get(0) {
        Some(entry) => entry.1.number,
        None => 0,
    }
}

// The first position of the first line, or 0.
fn first_of(history: &History) -> u64 {
    match history.get(0) {
        Some(HistoryItem::Line(line)) => line.first,
        None => 0,
    }
}

#[test]
fn lists_of_a_run_are_copied_and_read(rt: HostRuntime) -> Result<(), Fail> {
    let calls = one_call(rt.alloc())?.copy()?;
    assert!(rt; last_of(&calls) == 9);
    let entries = one_entry(rt.alloc())?.copy()?;
    assert!(rt; number_of(&entries) == 4);
    let history = one_line(rt.alloc())?;
    assert!(rt; first_of(&history) == 8);
    Ok(())
}

fn one_reply(alloc: Global) -> Result<ReplyTable, Fail> {
    let mut replies = ReplyTable::new(alloc);
    let reply = CommandReply {
        client: Client(1),
        number: 3,
        reply: None,
    };
    replies.push(reply)?;
    Ok(replies)
}

// Whether a row is there at the index.
fn has_row(reply: &Reply, index: usize) -> bool {
    match reply {
        Reply::Rows(rows) => rows.get(index).is_some(),
        _ => false,
    }
}

#[test]
fn replies_and_rows_are_read(rt: HostRuntime) -> Result<(), Fail> {
    let replies = one_reply(rt.alloc())?;
    assert!(rt; replies.len() == 1 && replies.get(0).is_some() && replies.get(1).is_none());
    let rows = reply_of(rt.alloc(), Told::Rows(1))?;
    assert!(rt; has_row(&rows, 0) && !has_row(&rows, 1));
    Ok(())
}

// The path of a component of three bytes.
fn one_path(alloc: Global) -> Result<Path, Fail> {
    let mut path = Path::new(alloc);
    path.push(Component::from_bytes(alloc, b"a~\xff")?)?;
    Ok(path)
}

// One command, with an empty path.
fn one_command(alloc: Global) -> Result<CommandList, Fail> {
    let mut commands = CommandList::new(alloc);
    commands.push(Command::Truncate(Path::new(alloc), 9))?;
    Ok(commands)
}

#[test]
fn commands_and_paths_are_read(rt: HostRuntime) -> Result<(), Fail> {
    let path = one_path(rt.alloc())?;
    let component = path.get(0);
    assert!(rt; component.is_some_and(|component| component.get(2) == Some(&b'\xff')));
    assert!(rt; path.get(1).is_none());
    let commands = one_command(rt.alloc())?;
    assert!(rt; matches!(commands.get(0), Some(Command::Truncate(_, 9))));
    assert!(rt; commands.get(1).is_none());
    Ok(())
}
