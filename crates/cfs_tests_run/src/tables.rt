//! Tables of scripts, and what comes of each. A row of a table is the line `=== ` with what the row shows, the script, and
//! the line `--- ` with what the program answers: `prints`, and then the text, or `line 2: BadPath` where the script is
//! refused there. In a row `<255*n>` stands for 255 times `n`.

use cfs_io::{MemSink, MemSource};
use cfs_run::{FreeGate, Status, cfs_words};
use std::alloc::Global;
use std::process::Abort;
use std::sync::Wait;
use std::test::Fail;
use std::thread::Threads;

// Adds what `255*n` stands for.
fn add_repeated(rt: &impl Abort, text: &mut String, repeated: &str) -> Result<(), Fail> {
    let Some((count, unit)) = repeated.split_once("*") else {
        panic!(rt; "no count in {repeated}");
    };
    let Ok(count) = count.parse::<u64>() else {
        panic!(rt; "no count in {repeated}");
    };
    for _ in 0..count {
        text.push_str(unit)?;
    }
    Ok(())
}

// The text with each `<255*n>` written out.
fn written_out(rt: &(impl Abort + AllocGlobal), text: &str) -> Result<String, Fail> {
    let mut whole = String::new(rt.alloc());
    for part in text.split("<") {
        match part.split_once(">") {
            Some((repeated, rest)) => {
                add_repeated(rt, &mut whole, repeated)?;
                whole.push_str(rest)?;
            }
            None => whole.push_str(part)?,
        }
    }
    Ok(whole)
}

// The word `replay` alone.
fn replay_word(alloc: Global) -> Result<Vec<String>, Fail> {
    let mut words = Vec::new(alloc);
    words.push(String::from_str(alloc, "replay")?)?;
    Ok(words)
}

// What a table calls the status.
fn answer_of(alloc: Global, status: Status) -> Result<String, Fail> {
    let answer = match status {
        Status::Done => String::from_str(alloc, "prints")?,
        Status::Script { line, fault } => format!(in alloc; "line {line}: {fault:?}")?,
        _ => format!(in alloc; "{status:?}")?,
    };
    Ok(answer)
}

// Replays the script, and checks the answer and what was written. The source gives a thousand bytes at a read, and the sink
// takes seven at a write.
fn answers<R: Threads + Wait + Sync + Abort + AllocGlobal>(
    rt: &R,
    shows: &str,
    script: &[u8],
    answer: &str,
    text: &[u8],
) -> Result<(), Fail> {
    let alloc = rt.alloc();
    let words = replay_word(alloc)?;
    let bytes = Vec::from_slice(alloc, script)?;
    let mut source = MemSource::new(bytes, 1000, Vec::new(alloc));
    let Ok(mut sink) = MemSink::new(alloc, 200_000, 7, Vec::new(alloc)) else {
        panic!(rt; "no memory");
    };
    let status = cfs_words(rt, alloc, &words, &mut source, &mut sink, &FreeGate);
    let told = answer_of(alloc, status)?;
    assert!(rt; told.as_str() == answer, "at {shows}: answered {told}");
    let printed = String::from_utf8_lossy(alloc, sink.bytes())?;
    assert!(rt; sink.bytes() == text, "at {shows}: printed {printed}");
    Ok(())
}

// Checks that the script prints the text.
pub(crate) fn prints<R: Threads + Wait + Sync + Abort + AllocGlobal>(
    rt: &R,
    shows: &str,
    script: &[u8],
    text: &[u8],
) -> Result<(), Fail> {
    answers(rt, shows, script, "prints", text)
}

// Checks one row. What it shows is written where the row fails.
fn answers_row<R: Threads + Wait + Sync + Abort + AllocGlobal>(
    rt: &R,
    row: &str,
) -> Result<(), Fail> {
    let Some((shows, rest)) = row.split_once("\n") else {
        panic!(rt; "nothing is shown in {row}");
    };
    let Some((script, end)) = rest.split_once("--- ") else {
        panic!(rt; "no answer at {shows}");
    };
    let Some((answer, text)) = end.split_once("\n") else {
        panic!(rt; "no end of the answer at {shows}");
    };
    let script = written_out(rt, script)?;
    let text = written_out(rt, text)?;
    answers(rt, shows, script.as_bytes(), answer, text.as_bytes())
}

// Checks each row of the table.
pub(crate) fn answers_each<R: Threads + Wait + Sync + Abort + AllocGlobal>(
    rt: &R,
    table: &str,
) -> Result<(), Fail> {
    assert!(rt;
        table.starts_with("\n=== "),
        "no row at the head of a table"
    );
    for row in table.split("=== ").skip(1) {
        answers_row(rt, row)?;
    }
    Ok(())
}

// Checks that these lines behind `head`, each alone, are refused at the line of this number. A row is a fault, `: ` and
// the line.
pub(crate) fn refuses_lines<R: Threads + Wait + Sync + Abort + AllocGlobal>(
    rt: &R,
    (head, number): (&str, u64),
    table: &str,
) -> Result<(), Fail> {
    for row in table.split("\n") {
        if !row.is_empty() {
            refuses_line(rt, (head, number), row)?;
        }
    }
    Ok(())
}

// Checks one line of `refuses_lines`.
fn refuses_line<R: Threads + Wait + Sync + Abort + AllocGlobal>(
    rt: &R,
    (head, number): (&str, u64),
    row: &str,
) -> Result<(), Fail> {
    let Some((fault, line)) = row.split_once(": ") else {
        panic!(rt; "no fault in {row}");
    };
    let script = format!(in rt.alloc(); "{head}{line}\n")?;
    let answer = format!(in rt.alloc(); "line {number}: {fault}")?;
    answers(rt, line, script.as_bytes(), answer.as_str(), b"")
}
