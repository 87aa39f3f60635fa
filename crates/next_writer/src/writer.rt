//! The machine of a writing call.
ghost use Rattle.std.specs.Prelude.{◌≡◌, ◌<◌, IsTrue, IfOk, IsOk, None};
ghost use Rattle.next_steps.specs.Phases.{Asking};
ghost use Rattle.next_steps.specs.Calls.{begun_of};
ghost use Rattle.next_writer.specs.Jobs.{job_of};
ghost use Rattle.next_writer.specs.Writers.{phase_of, is_writing, call_of};

use crate::asks::{ask_in, place_in};
use crate::calls::{Names, Writing};
use crate::heard::after;
use crate::state::WriterState;
use next_ends::{stamp_of, ts_of};
use next_ids::{Call, Client, JobNo, NoMemory, PlaceNo, Stamp, Ts};
use next_steps::{Ask, CallDone, Entry, Machine};

/// A create, mkdir, unlink, truncate or rename on its way. `put_index` is the index of the store of its file, or of the
/// shard of its directory.
#[derive(Drop)]
pub struct Writer {
    client: Client,
    put_index: u32,
    state: WriterState,
    ghost small: { put_index < 64 },
}

// The call as one that writes.
fn writing_of(call: Call) -> Writing
    requires { IsTrue (is_writing call) }
    ensures { call_of result ≡ call }
{
    match call {
        Call::Create { dir, name } => Writing::Create { dir, name },
        Call::Mkdir { dir, name } => Writing::Mkdir { dir, name },
        Call::Unlink { dir, name } => Writing::Unlink { dir, name },
        Call::Truncate { file, size } => Writing::Truncate { file, size },
        Call::Rename {
            dir,
            name,
            to_dir,
            to_name,
        } => Writing::Rename(Names {
            dir,
            name,
            to_dir,
            to_name,
        }),
        _ => unreachable!(),
    }
}

impl Writer {
    ghost use Rattle.next_writer.specs.WriterViews.{client_in, index_in, phase_in};

    /// The call of this client, which is a create, mkdir, unlink, truncate or rename, and has made no step.
    pub fn start(client: Client, call: Call, put_index: u32) -> Writer
        requires writing { IsTrue (is_writing call) }
        requires small { put_index < 64 }
        ensures phase { phase_in result ≡ Asking call }
        ensures client { client_in result ≡ client }
        ensures put_index { index_in result ≡ put_index }
    {
        Writer {
            client,
            put_index,
            state: WriterState::Asking(writing_of(call)),
        }
    }

    /// The call, where it has made a step and isn't finished, with its first step. The Err is want of memory, and comes
    /// only where there is one.
    pub fn begun(&self) -> Result<Option<(Call, Stamp)>, NoMemory>
        ensures begun { IfOk result (λ begun. begun ≡ begun_of (phase_in self.now)) }
        ensures sure { begun_of (phase_in self.now) ≡ None → IsOk result }
    {
        match &self.state {
            WriterState::Asking(_) | WriterState::Finished(_) => Ok(None),
            WriterState::Inserting { making, .. }
            | WriterState::Settling { making, .. }
            | WriterState::MakeHelping { making, .. }
            | WriterState::TakingBack { making, .. } => Ok(Some((making.call()?, making.first))),
            WriterState::Dropping(taking) | WriterState::Clearing(taking) => {
                Ok(Some((taking.call.copy()?, taking.first)))
            }
            WriterState::Submitting(renaming) | WriterState::Collecting { renaming, .. } => {
                let names = renaming.names.copy()?;
                Ok(Some((names.into_call(), renaming.first)))
            }
        }
    }

    /// The job that the call has submitted and not collected. None comes exactly where there is none.
    pub fn job(&self) -> Option<JobNo>
        ensures { result ≡ job_of (phase_in self.now) }
    {
        match &self.state {
            WriterState::Collecting { job, .. } => Some(*job),
            _ => None,
        }
    }
}

impl Machine for Writer {
    ghost client = { λ writer. writer.client };

    ghost put_index = { λ writer. writer.put_index };

    ghost phase = { λ writer. phase_of writer.state };

    fn next_place(&self) -> PlaceNo {
        place_in(self.put_index, &self.state)
    }

    fn ask(&self, last: Ts) -> Result<Ask, NoMemory> {
        ask_in(self.client, self.put_index, last, &self.state)
    }

    fn hear(&mut self, place: PlaceNo, entry: &Entry) -> Result<(), NoMemory> {
        let step = stamp_of(place, entry);
        self.state = after(&self.state, step, ts_of(entry), &entry.answer)?;
        Ok(())
    }

    fn finished(&self) -> Option<&CallDone> {
        match &self.state {
            WriterState::Finished(done) => Some(done),
            _ => None,
        }
    }
}
