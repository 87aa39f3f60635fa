//! The program: standard input and output, and the words after its name.
#![tactic(auto)]

ghost use Rattle.std.specs.Prelude.{◌≡◌};
ghost use Rattle.std.specs.Process.{exit_status};
ghost use Rattle.cfs_run.specs.Outcomes.{code_of};

mod fault;
#[cfg(test)]
mod tests;

use cfs_io::{StdSink, StdSource};
use cfs_run::{FreeGate, Status, cfs_words};
use fault::Fault;
use std::alloc::{AllocError, Global};
use std::env::{Env, FillError};
use std::process::ExitCode;
use std::str;

// The word at the index, where there is one. A word that is not text, or longer than any that is expected, stands as an
// empty one, which is not expected either.
fn word_at<E: Env>(env: &E, alloc: Global, index: usize) -> Result<Option<String>, AllocError> {
    let mut bytes = [0; 16];
    let count = match env.arg(index, &mut bytes) {
        Ok(count) => count,
        Err(FillError::TooLong) => 0,
        Err(FillError::NotPresent) => return Ok(None),
    };
    let text = str::from_utf8(&bytes[..count]).unwrap_or("");
    Ok(Some(String::from_str(alloc, text)?))
}

// The words after the program's name.
fn words<E: Env>(env: &E, alloc: Global) -> Result<Vec<String>, AllocError> {
    let mut words = Vec::new(alloc);
    for index in 1..usize::MAX {
        let Some(word) = word_at(env, alloc, index)? else {
            break;
        };
        words.push(word)?;
    }
    Ok(words)
}

// The exit status.
fn exit_of(status: &Status) -> ExitCode
    ensures { exit_status result ≡ code_of status.now }
{
    ExitCode::from(status.code())
}

fn main(rt: HostRuntime) -> ExitCode {
    let mut source = StdSource::new(rt.stdin());
    let mut sink = StdSink::new(rt.stdout());
    let status = match words(&rt, rt.alloc()) {
        Ok(words) => cfs_words(&rt, rt.alloc(), &words, &mut source, &mut sink, &FreeGate),
        Err(_) => Status::NoMemory,
    };
    if let Some(fault) = Fault::of(status) {
        // Where the line can't be written, the exit status still says it.
        let _ = eprintln!(rt; "{fault}");
    }
    exit_of(&status)
}
