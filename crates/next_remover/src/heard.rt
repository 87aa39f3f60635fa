//! What a rmdir makes of an answer.
ghost use Rattle.std.specs.Prelude.{◌≡◌, IsTrue, IfOk, None};
ghost use Rattle.next_ids.specs.declared.call.Call.TheVariants.{Rmdir};
ghost use Rattle.next_steps.specs.Calls.{heard_as, is_going};
ghost use Rattle.next_steps.specs.Ends.{told, moved};
ghost use Rattle.next_steps.specs.Removers.{heard_name, heard_mark, heard_remove};
ghost use Rattle.next_remover.specs.Removers.{phase_of};

use crate::state::{Cut, Removal, RemoverState};
use next_ends::{moved, told};
use next_ids::{DirId, Errno, NoMemory, Node, Reply, Stamp, Ts};
use next_steps::Answer;

impl Removal {
    // The call, ended by this step.
    fn told(self, step: Stamp, reply: Reply) -> RemoverState
        ensures { phase_of result ≡ told (Rmdir self.dir self.name) self.first step reply }
    {
        let first = self.first;
        RemoverState::Finished(told(self.into_call(), first, step, reply))
    }
}

impl Cut {
    // The call, ended with its move.
    fn moved(&self, last: Stamp) -> Result<RemoverState, NoMemory>
        ensures { IfOk result (λ state. phase_of state ≡ moved (Rmdir self.now.removal.dir self.now.removal.name) self.now.ts None self.now.removal.first self.now.at last) }
    {
        let call = self.removal.call()?;
        let done = moved(call, self.ts, None, self.removal.first, self.at, last);
        Ok(RemoverState::Finished(done))
    }
}

// A rmdir after a read of its row.
fn after_name(removal: Removal, ts: Option<Ts>, step: Stamp, answer: &Answer) -> RemoverState
    ensures { phase_of result ≡ heard_name removal.dir removal.name ts removal.first step answer.now }
{
    match answer {
        Answer::Absent => removal.told(step, Reply::Refused(Errno::Enoent)),
        Answer::Found(Node::File(_), _) => removal.told(step, Reply::Refused(Errno::Enotdir)),
        Answer::Found(Node::Dir(child), _) => RemoverState::Marking {
            removal,
            child: *child,
            ts,
        },
        Answer::Locked(job) => removal.told(step, Reply::Busy(*job)),
        _ => RemoverState::RowReading { removal, ts },
    }
}

// A rmdir after its mark, which had the time `ts`.
fn after_mark(
    removal: Removal,
    child: DirId,
    ts: Ts,
    step: Stamp,
    answer: &Answer,
) -> Result<RemoverState, NoMemory>
    ensures { IfOk result (λ state. phase_of state ≡ heard_mark removal.dir removal.name child ts removal.first step answer.now) }
{
    match answer {
        Answer::Gone => Ok(RemoverState::RowReading {
            removal,
            ts: Some(ts),
        }),
        Answer::Leaving(note) => Ok(RemoverState::MarkHelping {
            removal,
            note: note.copy()?,
            ts,
        }),
        Answer::Locked(job) => Ok(removal.told(step, Reply::Busy(*job))),
        Answer::NotEmpty => Ok(removal.told(step, Reply::Refused(Errno::Enotempty))),
        Answer::Done(_) => Ok(RemoverState::Removing { removal, child, ts }),
        _ => Ok(RemoverState::Marking {
            removal,
            child,
            ts: Some(ts),
        }),
    }
}

// A rmdir after it asked to cut its row: the move is this step, or that of the one that helped.
fn after_remove(
    removal: Removal,
    child: DirId,
    ts: Ts,
    step: Stamp,
    answer: &Answer,
) -> RemoverState
    ensures { phase_of result ≡ heard_remove removal.dir removal.name child ts removal.first step answer.now }
{
    match answer {
        Answer::Done(_) => RemoverState::RecDropping(Cut {
            removal,
            child,
            ts,
            at: step,
        }),
        Answer::Already(stamp) => RemoverState::RecDropping(Cut {
            removal,
            child,
            ts,
            at: *stamp,
        }),
        _ => RemoverState::Removing { removal, child, ts },
    }
}

/// The state after a step, whose ask had the time `asked`.
pub fn after(
    state: &RemoverState,
    step: Stamp,
    asked: Ts,
    answer: &Answer,
) -> Result<RemoverState, NoMemory>
    requires { IsTrue (is_going (phase_of state.now)) }
    ensures { IfOk result (λ after. phase_of after ≡ heard_as (phase_of state.now) step asked answer.now) }
{
    match state {
        RemoverState::Asking { dir, name } => {
            let removal = Removal {
                dir: *dir,
                name: name.copy()?,
                first: step,
            };
            Ok(after_name(removal, None, step, answer))
        }
        RemoverState::RowReading { removal, ts } => {
            Ok(after_name(removal.copy()?, *ts, step, answer))
        }
        RemoverState::Marking { removal, child, .. } => {
            after_mark(removal.copy()?, *child, asked, step, answer)
        }
        RemoverState::MarkHelping { removal, ts, .. } => Ok(RemoverState::RowReading {
            removal: removal.copy()?,
            ts: Some(*ts),
        }),
        RemoverState::Removing { removal, child, ts } => {
            Ok(after_remove(removal.copy()?, *child, *ts, step, answer))
        }
        RemoverState::RecDropping(cut) => Ok(RemoverState::RecClearing(cut.copy()?)),
        RemoverState::RecClearing(cut) => cut.moved(step),
        RemoverState::Finished(_) => unreachable!(),
    }
}
