//! What a writing call that has made a step makes of an answer.
ghost use Rattle.std.specs.Prelude.{◌≡◌, IsTrue, IfOk, Some, None};
ghost use Rattle.next_steps.specs.Calls.{heard_as, is_going};
ghost use Rattle.next_steps.specs.Ends.{moved, replied};
ghost use Rattle.next_steps.specs.Writers.{maker, heard_insert, heard_submit, heard_writing};
ghost use Rattle.next_steps.specs.Phases.{Collecting};
ghost use Rattle.next_writer.specs.Writers.{phase_of};

use crate::calls::{Making, Renaming, Taking};
use crate::first::after_first;
use crate::state::WriterState;
use next_ends::{answered, moved, replied};
use next_ids::{At, Errno, JobNo, NoMemory, Reply, Stamp, Ts};
use next_steps::Answer;

impl Making {
    // The create or mkdir, ended with its move at the step `at`.
    fn moved(&self, ts: Ts, at: Stamp, last: Stamp) -> Result<WriterState, NoMemory>
        ensures { IfOk result (λ state. phase_of state ≡ moved (maker self.now.dir self.now.name self.now.node) ts (Some self.now.node) self.now.first at last) }
    {
        let call = self.call()?;
        let done = moved(call, ts, Some(self.node), self.first, at, last);
        Ok(WriterState::Finished(done))
    }

    // The create or mkdir, ended without a move: the reply has the point `at`.
    fn replied(&self, reply: &Reply, at: At, last: Stamp) -> Result<WriterState, NoMemory>
        ensures { IfOk result (λ state. phase_of state ≡ replied (maker self.now.dir self.now.name self.now.node) self.now.first at last reply.now) }
    {
        let reply = reply.copy()?;
        let done = replied(self.call()?, self.first, at, last, reply);
        Ok(WriterState::Finished(done))
    }
}

impl Taking {
    // The unlink or rename, ended with its move.
    fn moved(&self, last: Stamp) -> Result<WriterState, NoMemory>
        ensures { IfOk result (λ state. phase_of state ≡ moved self.now.call self.now.ts None self.now.first self.now.at last) }
    {
        let call = self.call.copy()?;
        let done = moved(call, self.ts, None, self.first, self.at, last);
        Ok(WriterState::Finished(done))
    }
}

// A create or mkdir after its insert.
fn after_insert(
    making: Making,
    ts: Ts,
    step: Stamp,
    answer: &Answer,
) -> Result<WriterState, NoMemory>
    ensures { IfOk result (λ state. phase_of state ≡ heard_insert making.dir making.name making.node ts making.first step answer.now) }
{
    let reply = match answer {
        Answer::Done(_) => return Ok(WriterState::Settling {
            making,
            ts,
            at: step,
        }),
        Answer::Exists => Reply::Refused(Errno::Eexist),
        Answer::Full => Reply::Refused(Errno::Emlink),
        Answer::NoDir => Reply::Refused(Errno::Enoent),
        Answer::Locked(job) => Reply::Busy(*job),
        Answer::Leaving(note) => return Ok(WriterState::MakeHelping {
            making,
            note: note.copy()?,
        }),
        _ => return Ok(WriterState::Inserting { making, ts }),
    };
    Ok(WriterState::TakingBack {
        making,
        reply,
        at: At::Before(step),
    })
}

// A rename after it was handed to the Renamer.
fn after_submit(renaming: Renaming, answer: &Answer) -> WriterState
    ensures { phase_of result ≡ heard_submit renaming.names.dir renaming.names.name renaming.names.to_dir renaming.names.to_name renaming.ts renaming.first answer.now }
{
    match answer {
        Answer::Submitted(job) => WriterState::Collecting {
            renaming,
            job: *job,
        },
        _ => WriterState::Submitting(renaming),
    }
}

// A rename after it asked for the answer of its job.
fn after_collect(
    renaming: Renaming,
    job: JobNo,
    step: Stamp,
    answer: &Answer,
) -> Result<WriterState, NoMemory>
    ensures { IfOk result (λ state. phase_of state ≡ heard_writing (Collecting renaming.names.dir renaming.names.name renaming.names.to_dir renaming.names.to_name job renaming.ts renaming.first) step answer.now) }
{
    match answer {
        Answer::Answered(reply, at) => {
            let reply = reply.copy()?;
            let call = renaming.names.into_call();
            Ok(WriterState::Finished(answered(call, renaming.ts, renaming.first, step, reply, *at)))
        }
        _ => Ok(WriterState::Collecting { renaming, job }),
    }
}

/// The state after a step, from which the call takes the time `ts`.
pub fn after(
    state: &WriterState,
    step: Stamp,
    ts: Ts,
    answer: &Answer,
) -> Result<WriterState, NoMemory>
    requires { IsTrue (is_going (phase_of state.now)) }
    ensures { IfOk result (λ after. phase_of after ≡ heard_as (phase_of state.now) step ts answer.now) }
{
    match state {
        WriterState::Asking(writing) => after_first(writing, step, ts, answer),
        WriterState::Inserting { making, ts } => after_insert(making.copy()?, *ts, step, answer),
        WriterState::Settling { making, ts, at } => making.moved(*ts, *at, step),
        WriterState::MakeHelping { making, .. } => Ok(WriterState::TakingBack {
            making: making.copy()?,
            reply: Reply::Refused(Errno::Enoent),
            at: At::After(step),
        }),
        WriterState::TakingBack { making, reply, at } => making.replied(reply, *at, step),
        WriterState::Dropping(taking) => Ok(WriterState::Clearing(taking.copy()?)),
        WriterState::Clearing(taking) => taking.moved(step),
        WriterState::Submitting(renaming) => Ok(after_submit(renaming.copy()?, answer)),
        WriterState::Collecting { renaming, job } => {
            after_collect(renaming.copy()?, *job, step, answer)
        }
        WriterState::Finished(_) => unreachable!(),
    }
}
