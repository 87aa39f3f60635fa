//! What a writing call makes of the answer of its first step.
ghost use Rattle.std.specs.Prelude.{◌≡◌, IfOk};
ghost use Rattle.next_ids.specs.declared.call.Call.TheVariants.{Create, Mkdir};
ghost use Rattle.next_steps.specs.Calls.{heard_first};
ghost use Rattle.next_steps.specs.Phases.{Writes, Inserting};
ghost use Rattle.next_steps.specs.Writers.{heard_put, heard_delete, heard_size, heard_rename};
ghost use Rattle.next_writer.specs.Writers.{phase_of, call_of};

use crate::calls::{Making, Names, Renaming, Taking, Writing};
use crate::state::WriterState;
use next_ends::{moved, told};
use next_ids::{Call, DirId, Errno, FileId, Name, NoMemory, Node, Reply, Stamp, Ts};
use next_steps::Answer;

// A create or mkdir that has put its node at its first step.
fn inserting(dir: DirId, name: Name, node: Node, ts: Ts, first: Stamp) -> WriterState
    ensures { phase_of result ≡ Writes (Inserting dir name node ts first) }
{
    let making = Making {
        dir,
        name,
        node,
        first,
    };
    WriterState::Inserting { making, ts }
}

// A create after its put.
fn after_create(dir: DirId, name: Name, ts: Ts, step: Stamp, answer: &Answer) -> WriterState
    ensures { phase_of result ≡ heard_put (Create dir name) dir name ts step answer.now }
{
    match answer {
        Answer::New(node) => inserting(dir, name, *node, ts, step),
        _ => WriterState::Asking(Writing::Create { dir, name }),
    }
}

// A mkdir after its put.
fn after_mkdir(dir: DirId, name: Name, ts: Ts, step: Stamp, answer: &Answer) -> WriterState
    ensures { phase_of result ≡ heard_put (Mkdir dir name) dir name ts step answer.now }
{
    match answer {
        Answer::New(node) => inserting(dir, name, *node, ts, step),
        _ => WriterState::Asking(Writing::Mkdir { dir, name }),
    }
}

// An unlink after its delete.
fn after_delete(dir: DirId, name: Name, ts: Ts, step: Stamp, answer: &Answer) -> WriterState
    ensures { phase_of result ≡ heard_delete dir name ts step answer.now }
{
    let reply = match answer {
        Answer::Done(Some(Node::File(file))) => return WriterState::Dropping(Taking {
            call: Call::Unlink { dir, name },
            file: *file,
            ts,
            first: step,
            at: step,
        }),
        Answer::Absent => Reply::Refused(Errno::Enoent),
        Answer::IsDir => Reply::Refused(Errno::Eperm),
        Answer::Locked(job) => Reply::Busy(*job),
        _ => return WriterState::Asking(Writing::Unlink { dir, name }),
    };
    WriterState::Finished(told(Call::Unlink { dir, name }, step, step, reply))
}

// A truncate after its step.
fn after_size(file: FileId, size: u64, ts: Ts, step: Stamp, answer: &Answer) -> WriterState
    ensures { phase_of result ≡ heard_size file size ts step answer.now }
{
    let call = Call::Truncate { file, size };
    match answer {
        Answer::Done(_) => WriterState::Finished(moved(call, ts, None, step, step, step)),
        Answer::None => WriterState::Finished(told(
            call,
            step,
            step,
            Reply::Refused(Errno::Enoent),
        )),
        _ => WriterState::Asking(Writing::Truncate { file, size }),
    }
}

// A rename after its swap, or after it was handed to the Renamer.
fn after_rename(names: Names, ts: Ts, step: Stamp, answer: &Answer) -> WriterState
    ensures { phase_of result ≡ heard_rename names.dir names.name names.to_dir names.to_name ts step answer.now }
{
    let reply = match answer {
        Answer::Done(None) => {
            let call = names.into_call();
            return WriterState::Finished(moved(call, ts, None, step, step, step));
        }
        Answer::Done(Some(Node::File(file))) => return WriterState::Dropping(Taking {
            call: names.into_call(),
            file: *file,
            ts,
            first: step,
            at: step,
        }),
        Answer::Same => Reply::Kept,
        Answer::Absent => Reply::Refused(Errno::Enoent),
        Answer::TargetIsDir => Reply::Refused(Errno::Eisdir),
        Answer::Locked(job) => Reply::Busy(*job),
        Answer::SourceIsDir => return WriterState::Submitting(Renaming {
            names,
            ts,
            first: step,
        }),
        Answer::Submitted(job) => return WriterState::Collecting {
            renaming: Renaming {
                names,
                ts,
                first: step,
            },
            job: *job,
        },
        _ => return WriterState::Asking(Writing::Rename(names)),
    };
    WriterState::Finished(told(names.into_call(), step, step, reply))
}

/// The state after the first step.
pub fn after_first(
    writing: &Writing,
    step: Stamp,
    ts: Ts,
    answer: &Answer,
) -> Result<WriterState, NoMemory>
    ensures { IfOk result (λ state. phase_of state ≡ heard_first (call_of writing.now) step ts answer.now) }
{
    match writing {
        Writing::Create { dir, name } => Ok(after_create(*dir, name.copy()?, ts, step, answer)),
        Writing::Mkdir { dir, name } => Ok(after_mkdir(*dir, name.copy()?, ts, step, answer)),
        Writing::Unlink { dir, name } => Ok(after_delete(*dir, name.copy()?, ts, step, answer)),
        Writing::Truncate { file, size } => Ok(after_size(*file, *size, ts, step, answer)),
        Writing::Rename(names) => Ok(after_rename(names.copy()?, ts, step, answer)),
    }
}
