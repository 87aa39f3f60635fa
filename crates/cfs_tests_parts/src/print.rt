//! The printed forms of replies, calls and files that no run has yet.
use crate::calls::Made::{At, Rename, StatRoot, Truncate};
use crate::calls::Verb::{Lookup, Rmdir, Stat, Unlink};
use crate::calls::{Made, Told, call_of, reply_of};
use crate::tree::with_parts;
use Told::{Busy, DirStat, FileStat, Kept, Moved};
use cfs_history::{History, HistoryItem, Line, Outcome};
use cfs_ids::{Client, NoMemory};
use cfs_io::MemSink;
use cfs_print::{CommandReply, NamedFiles, Printed, ReplyTable, write_run};
use cfs_view::Tallied;
use std::alloc::Global;
use std::test::Fail;

// The number of a command of client 1, its reply, and its line.
const REPLIES: [(u64, Told, &str); 4] = [
    (1, Kept, "c 1 1 OK\n"),
    (2, DirStat(2, 3, 9), "c 1 2 DIR children=2 links=3 time=9\n"),
    (3, FileStat(5, 8), "c 1 3 FILE size=5 time=8\n"),
    (4, Busy(7), "c 1 4 BUSY 7\n"),
];

// A call of client 2 from step 0 to step 6 with its point at step 3, its reply, and its line. A move is at time 4.
const CALLS: [(Made, Told, &str); 9] = [
    (
        StatRoot,
        DirStat(2, 3, 9),
        "l 2 0 3 6 statroot = dir 2 3 9\n",
    ),
    (
        At(Stat, 0, b'x'),
        FileStat(5, 8),
        "l 2 0 3 6 stat 0 x = file 5 8\n",
    ),
    (
        At(Lookup, 0, b'x'),
        Busy(7),
        "l 2 0 3 6 lookup 0 x = BUSY 7\n",
    ),
    (
        At(Unlink, 65, b'x'),
        Moved,
        "l 2 0 3 6 unlink 65 x = ok 4 -\n",
    ),
    (At(Rmdir, 0, b'd'), Moved, "l 2 0 3 6 rmdir 0 d = ok 4 -\n"),
    (Truncate(64, 9), Moved, "l 2 0 3 6 truncate 64 9 = ok 4 -\n"),
    (
        Rename(0, b'x', 65, b'y'),
        Moved,
        "l 2 0 3 6 rename 0 x 65 y = ok 4 -\n",
    ),
    (
        Rename(0, b'x', 0, b'x'),
        Kept,
        "l 2 0 3 6 rename 0 x 0 x = kept\n",
    ),
    (
        At(Unlink, 0, b'x'),
        Busy(7),
        "l 2 0 3 6 unlink 0 x = BUSY 7\n",
    ),
];

// The lines of a tree `with_parts`, after which the counts come.
const TREE: &str = "t 0 / d0 children=2 links=3 time=0\n\
    t 0 a f64 size=0 time=3\n\
    t 0 b d64 children=0 links=2 time=4\n\
    u f128 size=2 time=5\n";

// The table of the replies, and its lines behind the text.
fn add_replies(alloc: Global, text: &mut String) -> Result<ReplyTable, Fail> {
    let mut replies = ReplyTable::new(alloc);
    for (number, told, line) in REPLIES {
        let reply = CommandReply {
            client: Client(1),
            number,
            reply: Some(reply_of(alloc, told)?),
        };
        replies.push(reply)?;
        text.push_str(line)?;
    }
    Ok(replies)
}

fn outcome_of(alloc: Global, told: Told) -> Result<Outcome, NoMemory> {
    match told {
        Moved => Ok(Outcome::Moved { ts: 4, made: None }),
        _ => Ok(Outcome::Reply(reply_of(alloc, told)?)),
    }
}

// The history of the calls, and its lines behind the text.
fn add_calls(alloc: Global, text: &mut String) -> Result<History, Fail> {
    let mut history = History::new(alloc);
    for (made, told, line) in CALLS {
        let item = Line {
            client: Client(2),
            call: call_of(alloc, made)?,
            first: 0,
            at: Some(3),
            last: Some(6),
            outcome: outcome_of(alloc, told)?,
        };
        history.push(HistoryItem::Line(item))?;
        text.push_str(line)?;
    }
    Ok(history)
}

#[test]
fn each_form_is_printed(rt: HostRuntime) -> Result<(), Fail> {
    let mut text = String::from_str(rt.alloc(), "cfs 1\nplaces 2 1\n")?;
    let printed = Printed {
        shards: 2,
        stores: 1,
        replies: add_replies(rt.alloc(), &mut text)?,
        history: add_calls(rt.alloc(), &mut text)?,
        tree: with_parts(rt.alloc())?,
        steps: 0,
        tally: Tallied {
            owed: 0,
            debts: 0,
            marks: 0,
            strays: 0,
        },
    };
    text.push_str(TREE)?;
    let named = NamedFiles::of(rt.alloc(), &printed.tree)?;
    let mut sink = MemSink::new(rt.alloc(), 1000, 7, Vec::new(rt.alloc()))?;
    assert!(rt; write_run(&printed, &named, &mut sink).is_ok());
    assert!(rt; sink.bytes().starts_with(text.as_bytes()), "{text}");
    Ok(())
}
