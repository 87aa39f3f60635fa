//! The words after the program's name, and the line of each status.
use crate::fault::Fault;
use crate::words;
use cfs_ids::PlaceNo;
use cfs_run::Status;
use cfs_script::Fault as ScriptFault;
use std::alloc::Global;
use std::env::{Env, FillError};
use std::test::Fail;

// The line that is written for the status, and no text where none is.
fn line_of(alloc: Global, status: Status) -> Result<String, Fail> {
    match Fault::of(status) {
        Some(fault) => Ok(format!(in alloc; "{fault}")?),
        None => Ok(String::from_str(alloc, "")?),
    }
}

const LINE: [&[u8]; 5] = [
    b"cfs",
    b"replay",
    b"sixteen-letters-",
    b"seventeen-letters",
    b"\xff",
];

// An environment with this command line, and no variables.
struct FiveWords;

impl Env for FiveWords {
    fn arg(&self, i: usize, buf: &mut [u8]) -> Result<usize, FillError> {
        let Some(word) = LINE.get(i) else {
            return Err(FillError::NotPresent);
        };
        if word.len() > buf.len() {
            return Err(FillError::TooLong);
        }
        buf[..word.len()].copy_from_slice(word);
        Ok(word.len())
    }

    fn var(&self, _name: &str, _buf: &mut [u8]) -> Result<usize, FillError> {
        Err(FillError::NotPresent)
    }

    fn var_at(&self, _i: usize, _buf: &mut [u8]) -> Result<usize, FillError> {
        Err(FillError::NotPresent)
    }
}

#[test]
fn the_words_after_the_name(rt: HostRuntime) -> Result<(), Fail> {
    let words = words(&FiveWords, rt.alloc())?;
    let wanted = ["replay", "sixteen-letters-", "", ""];
    assert_eq!(rt; words.len(), wanted.len());
    for (word, want) in words.iter().zip(wanted) {
        assert_eq!(rt; word.as_str(), want);
    }
    Ok(())
}

#[test]
fn each_status_has_its_line(rt: HostRuntime) -> Result<(), Fail> {
    let fault = ScriptFault::BadPath;
    let place = PlaceNo(0);
    let cases = [
        (Status::Done, ""),
        (Status::Usage { word: 1 }, "cfs: word 1 is not expected"),
        (Status::Script { line: 2, fault }, "cfs: line 2: BadPath"),
        (Status::ReadFault, "cfs: reading failed"),
        (Status::WriteFault, "cfs: writing failed"),
        (Status::NoMemory, "cfs: no memory"),
        (Status::LogFull { place }, "cfs: the log of place 0 is full"),
    ];
    for (status, line) in cases {
        let text = line_of(rt.alloc(), status)?;
        assert_eq!(rt; text.as_str(), line);
    }
    Ok(())
}

#[test]
fn each_fault_has_its_name(rt: HostRuntime) -> Result<(), Fail> {
    let cases = [
        (ScriptFault::NoPlaces, "cfs: line 7: NoPlaces"),
        (ScriptFault::BadNumber, "cfs: line 7: BadNumber"),
        (ScriptFault::BadCommand, "cfs: line 7: BadCommand"),
        (ScriptFault::TooMany, "cfs: line 7: TooMany"),
        (ScriptFault::LineTooLong, "cfs: line 7: LineTooLong"),
        (ScriptFault::LateLine, "cfs: line 7: LateLine"),
        (ScriptFault::NotBuilt, "cfs: line 7: NotBuilt"),
    ];
    for (fault, line) in cases {
        let text = line_of(rt.alloc(), Status::Script { line: 7, fault })?;
        assert_eq!(rt; text.as_str(), line);
    }
    Ok(())
}
