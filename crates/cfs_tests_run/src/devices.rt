//! Words that are not expected, devices that fail at each call in turn or move little at a call, and how few calls a run
//! makes.
ghost use Rattle.std.specs.Prelude.{◌<◌};

use crate::many::{thousand_script, thousand_text};
use cfs_io::{MemSink, MemSource, SureSink, SureSource};
use cfs_run::{FreeGate, Status, cfs_words, replay};
use cfs_script::Fault;
use std::process::Abort;
use std::sync::Wait;
use std::test::Fail;
use std::thread::Threads;

const SCRIPT: &str = "places 1 1
client 1 create /x
client 2 create /x
turns 1 2 2 2 1 1
";

const TEXT: &str = "cfs 1
places 1 1
c 1 1 EEXIST
c 2 1 OK
l 2 1 2 3 create 0 x = ok 2 f128
l 1 0 4 5 create 0 x = EEXIST
t 0 / d0 children=1 links=2 time=2
t 0 x f128 size=0 time=2
s steps=6 calls=2 unfinished=0 busy=0 forgets=0 owed=0 debts=0 marks=0 strays=0
";

// A source of this script that gives at most `piece` bytes at a read, and fails at the read `fail`, counted from 1.
fn source_of(
    rt: &impl AllocGlobal,
    script: &str,
    piece: usize,
    fail: u64,
) -> Result<MemSource, Fail>
    requires { 0 < piece }
{
    let alloc = rt.alloc();
    let bytes = Vec::from_slice(alloc, script.as_bytes())?;
    Ok(MemSource::new(bytes, piece, Vec::from_slice(alloc, &[fail])?))
}

// A sink that takes at most `piece` bytes at a write, and fails at the write `fail`, counted from 1.
fn sink_of(
    rt: &(impl Abort + AllocGlobal),
    room: usize,
    piece: usize,
    fail: u64,
) -> Result<MemSink, Fail>
    requires { 0 < piece }
{
    let alloc = rt.alloc();
    let fails = Vec::from_slice(alloc, &[fail])?;
    let Ok(sink) = MemSink::new(alloc, room, piece, fails) else {
        panic!(rt; "no memory");
    };
    Ok(sink)
}

// What the program does with these words.
fn run<R: Threads + Wait + Sync + AllocGlobal>(
    rt: &R,
    words: &[&str],
    source: &mut MemSource,
    sink: &mut MemSink,
) -> Result<Status, Fail> {
    let alloc = rt.alloc();
    let mut list = Vec::new(alloc);
    for word in words {
        list.push(String::from_str(alloc, word)?)?;
    }
    Ok(cfs_words(rt, alloc, &list, source, sink, &FreeGate))
}

#[test]
fn words_that_are_not_expected(rt: HostRuntime) -> Result<(), Fail> {
    let cases: [(&[&str], usize); 4] = [
        (&[], 0),
        (&["play"], 0),
        (&["replay", "it"], 1),
        (&["it", "replay"], 0),
    ];
    for (words, word) in cases {
        let mut source = source_of(&rt, SCRIPT, 10, 0)?;
        let mut sink = sink_of(&rt, 1000, 7, 0)?;
        let status = run(&rt, words, &mut source, &mut sink)?;
        assert!(rt; status == Status::Usage { word }, "answered {status:?}");
        assert!(rt; sink.bytes().is_empty(), "something was written");
    }
    Ok(())
}

#[test]
fn bytes_that_no_device_fails_on(rt: HostRuntime) -> Result<(), Fail> {
    let short = Vec::from_slice(rt.alloc(), b"places 1")?;
    let line = 1;
    let fault = Fault::BadCommand;
    let status = replay(
        rt.alloc(),
        &mut SureSource::new(short),
        &mut SureSink::new(),
    );
    assert!(rt; status == Status::Script { line, fault });
    assert!(rt; Status::ReadFault.code() == 4);
    Ok(())
}

// A script that is read to its end is told a fault of, before a write fails.
#[test]
fn the_cause_that_comes_first(rt: HostRuntime) -> Result<(), Fail> {
    let line = 1;
    let fault = Fault::BadNumber;
    let cases = [
        ("places 0 1\n", 1000, 2, Status::ReadFault),
        ("places 0 1\n", 5, 3, Status::ReadFault),
        ("places 1 1\n", 1000, 2, Status::ReadFault),
        ("places 0 1\n", 1000, 0, Status::Script { line, fault }),
        ("places 1 1\n", 1000, 0, Status::WriteFault),
    ];
    for (script, piece, fail, want) in cases {
        let mut source = source_of(&rt, script, piece, fail)?;
        let mut sink = sink_of(&rt, 0, 7, 0)?;
        let status = run(&rt, &["replay"], &mut source, &mut sink)?;
        assert!(rt; status == want, "at {script}: answered {status:?}");
    }
    Ok(())
}

#[test]
fn bytes_that_come_and_go_in_small_pieces(rt: HostRuntime) -> Result<(), Fail> {
    for (read, written) in [(1, 1), (3, 1), (10, 7), (10, 1000)] {
        let mut source = source_of(&rt, SCRIPT, read, 0)?;
        let mut sink = sink_of(&rt, 1000, written, 0)?;
        let status = run(&rt, &["replay"], &mut source, &mut sink)?;
        assert!(rt; status == Status::Done, "answered {status:?}");
        assert!(rt; sink.bytes() == TEXT.as_bytes(), "at pieces of {read}");
    }
    Ok(())
}

// The script has 67 bytes: seven reads of at most ten, and one that finds the end.
#[test]
fn a_read_that_fails_at_each_call(rt: HostRuntime) -> Result<(), Fail> {
    for call in 1..=9 {
        let mut source = source_of(&rt, SCRIPT, 10, call)?;
        let mut sink = sink_of(&rt, 1000, 7, 0)?;
        let status = run(&rt, &["replay"], &mut source, &mut sink)?;
        let (want, text) = if call < 9 {
            (Status::ReadFault, "")
        } else {
            (Status::Done, TEXT)
        };
        assert!(rt; status == want, "at {call}: answered {status:?}");
        assert!(rt; sink.bytes() == text.as_bytes(), "at {call}");
    }
    Ok(())
}

#[test]
fn a_write_that_fails_at_each_byte(rt: HostRuntime) -> Result<(), Fail> {
    let text = TEXT.as_bytes();
    for count in 0..text.len() {
        let mut source = source_of(&rt, SCRIPT, 10, 0)?;
        let mut sink = sink_of(&rt, 1000, 1, count as u64 + 1)?;
        let status = run(&rt, &["replay"], &mut source, &mut sink)?;
        assert!(rt; status == Status::WriteFault, "at {count}");
        assert!(rt; sink.bytes() == &text[..count], "at {count}");
    }
    Ok(())
}

// The script has 33,035 bytes. A read asks for 4,096 of them, so nine reads give them all, and the tenth finds the end:
// where the eleventh would fail, no read fails. A page of text has 4,096 bytes. A part of a line that finds no room in it
// is written behind it by itself, so each two writes but the last take more than 4,096 bytes, and none takes more.
#[test]
fn bytes_are_read_and_written_by_pages(rt: HostRuntime) -> Result<(), Fail> {
    let script = thousand_script(rt.alloc())?;
    let text = thousand_text(rt.alloc())?;
    let (least, most) = (text.len() / 4096, text.len() / 4097 * 2 + 1);
    let cases = [
        (10, 0, Status::ReadFault),
        (11, most as u64 + 1, Status::Done),
        (11, least as u64, Status::WriteFault),
    ];
    for (read_fails, write_fails, want) in cases {
        let mut source = source_of(&rt, script.as_str(), 1_000_000, read_fails)?;
        let mut sink = sink_of(&rt, 200_000, 1_000_000, write_fails)?;
        let status = run(&rt, &["replay"], &mut source, &mut sink)?;
        assert!(rt;
            status == want,
            "at {read_fails} and {write_fails}: answered {status:?}"
        );
    }
    Ok(())
}
