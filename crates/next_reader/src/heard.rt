//! What a reading call makes of an answer.
ghost use Rattle.std.specs.Prelude.{◌≡◌, IsTrue, IfOk};
ghost use Rattle.next_ids.specs.declared.time.Ts.{Ts};
ghost use Rattle.next_ids.specs.declared.call.Call.TheVariants.{Stat as StatCall};
ghost use Rattle.next_steps.specs.Calls.{heard_first, heard_as, is_going};
ghost use Rattle.next_steps.specs.Ends.{told};
ghost use Rattle.next_steps.specs.Readers.{heard_lookup, heard_list, heard_root, heard_row, heard_look, heard_get, heard_check};
ghost use Rattle.next_reader.specs.Readers.{phase_of, call_of, has_counts};

use crate::state::{FileStat, ReaderState, Reading, Stat};
use next_ends::{dir_stat, is_stamp, replied, told};
use next_ids::{At, Call, DirId, Errno, Name, NoMemory, Node, Reply, Stamp, Ts};
use next_steps::Answer;

// A look-up after its step.
fn after_lookup(dir: DirId, name: Name, step: Stamp, answer: &Answer) -> ReaderState
    ensures { phase_of result ≡ heard_lookup dir name step answer.now }
{
    let reply = match answer {
        Answer::Found(node, _) => Reply::Node(*node),
        Answer::Absent => Reply::Refused(Errno::Enoent),
        Answer::Locked(job) => Reply::Busy(*job),
        _ => return ReaderState::Asking(Reading::Lookup { dir, name }),
    };
    ReaderState::Finished(told(Call::Lookup { dir, name }, step, step, reply))
}

// A list after its first step.
fn after_list(dir: DirId, step: Stamp, answer: &Answer) -> Result<ReaderState, NoMemory>
    ensures { IfOk result (λ state. phase_of state ≡ heard_list dir step answer.now) }
{
    let reply = match answer {
        Answer::Rows(rows) => Reply::Rows(rows.copy()?),
        Answer::NoDir => Reply::Refused(Errno::Enoent),
        Answer::Locked(job) => Reply::Busy(*job),
        Answer::Leaving(note) => return Ok(ReaderState::ListHelping {
            dir,
            note: note.copy()?,
            first: step,
        }),
        _ => return Ok(ReaderState::Asking(Reading::List { dir })),
    };
    Ok(ReaderState::Finished(told(Call::List { dir }, step, step, reply)))
}

// A stat of the root after a step.
fn after_root(first: Stamp, step: Stamp, answer: &Answer) -> ReaderState
    requires { IsTrue (has_counts answer.now) }
    ensures { phase_of result ≡ heard_root first step answer.now }
{
    let reply = match answer {
        Answer::Attr(attr) => dir_stat(*attr),
        Answer::Locked(job) => Reply::Busy(*job),
        _ => return ReaderState::RootLooking { first },
    };
    ReaderState::Finished(told(Call::StatRoot, first, step, reply))
}

impl Stat {
    // The stat, ended by this step.
    fn told(self, step: Stamp, reply: Reply) -> ReaderState
        ensures { phase_of result ≡ told (StatCall self.dir self.name) self.first step reply }
    {
        let first = self.first;
        ReaderState::Finished(told(self.into_call(), first, step, reply))
    }
}

// A stat after a read of its row.
fn after_row(stat: Stat, step: Stamp, answer: &Answer) -> ReaderState
    ensures { phase_of result ≡ heard_row stat.dir stat.name stat.first step answer.now }
{
    match answer {
        Answer::Absent => stat.told(step, Reply::Refused(Errno::Enoent)),
        Answer::Locked(job) => stat.told(step, Reply::Busy(*job)),
        Answer::Found(Node::Dir(child), _) => ReaderState::StatLooking {
            stat,
            child: *child,
        },
        Answer::Found(Node::File(file), row) => ReaderState::StatGetting(FileStat {
            stat,
            file: *file,
            row: *row,
        }),
        _ => ReaderState::StatReading(stat),
    }
}

// A stat after a look at the record of the directory.
fn after_look(
    stat: Stat,
    child: DirId,
    step: Stamp,
    answer: &Answer,
) -> Result<ReaderState, NoMemory>
    requires { IsTrue (has_counts answer.now) }
    ensures { IfOk result (λ state. phase_of state ≡ heard_look stat.dir stat.name child stat.first step answer.now) }
{
    match answer {
        Answer::Attr(attr) => Ok(stat.told(step, dir_stat(*attr))),
        Answer::Locked(job) => Ok(stat.told(step, Reply::Busy(*job))),
        Answer::NoDir | Answer::Moved => Ok(ReaderState::StatReading(stat)),
        Answer::Leaving(note) => Ok(ReaderState::StatHelping {
            stat,
            note: note.copy()?,
        }),
        _ => Ok(ReaderState::StatLooking { stat, child }),
    }
}

// A stat after a get of the file.
fn after_get(file: FileStat, step: Stamp, answer: &Answer) -> ReaderState
    ensures { phase_of result ≡ heard_get file.stat.dir file.stat.name file.file file.row file.stat.first step answer.now }
{
    match answer {
        Answer::File { size, time } => ReaderState::StatChecking {
            file,
            found: Some((*size, *time)),
            got: step,
        },
        Answer::None => ReaderState::StatChecking {
            file,
            found: None,
            got: step,
        },
        _ => ReaderState::StatGetting(file),
    }
}

// A stat after the second read of its row.
fn after_check(
    file: FileStat,
    found: Option<(u64, Ts)>,
    got: Stamp,
    step: Stamp,
    answer: &Answer,
) -> ReaderState
    ensures { phase_of result ≡ heard_check file.stat.dir file.stat.name file.file file.row found got file.stat.first step answer.now }
{
    match (found, answer) {
        (Some((size, time)), Answer::Found(Node::File(other), again))
            if other.0 == file.file.0 && is_stamp(*again, file.row) => {
            let first = file.stat.first;
            ReaderState::Finished(replied(
                file.stat.into_call(),
                first,
                At::Before(got),
                step,
                Reply::FileStat { size, time },
            ))
        }
        _ => after_row(file.stat, step, answer),
    }
}

// A call after its first step.
fn after_first(reading: &Reading, step: Stamp, answer: &Answer) -> Result<ReaderState, NoMemory>
    requires { IsTrue (has_counts answer.now) }
    ensures { IfOk result (λ state. (ts : Ts) → phase_of state ≡ heard_first (call_of reading.now) step ts answer.now) }
{
    match reading {
        Reading::Lookup { dir, name } => Ok(after_lookup(*dir, name.copy()?, step, answer)),
        Reading::List { dir } => after_list(*dir, step, answer),
        Reading::StatRoot => Ok(after_root(step, step, answer)),
        Reading::Stat { dir, name } => {
            let stat = Stat {
                dir: *dir,
                name: name.copy()?,
                first: step,
            };
            Ok(after_row(stat, step, answer))
        }
    }
}

/// The state after a step.
pub fn after(state: &ReaderState, step: Stamp, answer: &Answer) -> Result<ReaderState, NoMemory>
    requires going { IsTrue (is_going (phase_of state.now)) }
    requires counts { IsTrue (has_counts answer.now) }
    ensures { IfOk result (λ after. (ts : Ts) → phase_of after ≡ heard_as (phase_of state.now) step ts answer.now) }
{
    match state {
        ReaderState::Asking(reading) => after_first(reading, step, answer),
        ReaderState::ListHelping { dir, first, .. } => Ok(ReaderState::Finished(replied(
            Call::List { dir: *dir },
            *first,
            At::After(step),
            step,
            Reply::Refused(Errno::Enoent),
        ))),
        ReaderState::RootLooking { first } => Ok(after_root(*first, step, answer)),
        ReaderState::StatReading(stat) => Ok(after_row(stat.copy()?, step, answer)),
        ReaderState::StatLooking { stat, child } => after_look(stat.copy()?, *child, step, answer),
        ReaderState::StatHelping { stat, .. } => Ok(ReaderState::StatReading(stat.copy()?)),
        ReaderState::StatGetting(file) => Ok(after_get(file.copy()?, step, answer)),
        ReaderState::StatChecking { file, found, got } => {
            Ok(after_check(file.copy()?, *found, *got, step, answer))
        }
        ReaderState::Finished(_) => unreachable!(),
    }
}
