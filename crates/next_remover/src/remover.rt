//! The machine of a rmdir.
ghost use Rattle.std.specs.Prelude.{◌≡◌, IsTrue, IfOk, IsOk, None};
ghost use Rattle.next_steps.specs.Phases.{Asking};
ghost use Rattle.next_steps.specs.Calls.{begun_of};
ghost use Rattle.next_remover.specs.Removers.{phase_of, is_removing};

use crate::asks::{ask_in, place_in};
use crate::heard::after;
use crate::state::{Cut, RemoverState};
use next_ends::{stamp_of, ts_of};
use next_ids::{Call, Client, NoMemory, PlaceNo, Stamp, Ts};
use next_steps::{Ask, CallDone, Entry, Machine};

/// A rmdir on its way.
#[derive(Drop)]
pub struct Remover {
    client: Client,
    state: RemoverState,
}

// The state of a rmdir that has made no step.
fn asking(call: Call) -> RemoverState
    requires { IsTrue (is_removing call) }
    ensures { phase_of result ≡ Asking call }
{
    match call {
        Call::Rmdir { dir, name } => RemoverState::Asking { dir, name },
        _ => unreachable!(),
    }
}

impl Remover {
    ghost use Rattle.next_remover.specs.RemoverViews.{client_in, phase_in};

    /// The call of this client, which is a rmdir and has made no step.
    pub fn start(client: Client, call: Call) -> Remover
        requires { IsTrue (is_removing call) }
        ensures phase { phase_in result ≡ Asking call }
        ensures client { client_in result ≡ client }
    {
        Remover {
            client,
            state: asking(call),
        }
    }

    /// The call, where it has made a step and isn't finished, with its first step. The Err is want of memory, and comes
    /// only where there is one.
    pub fn begun(&self) -> Result<Option<(Call, Stamp)>, NoMemory>
        ensures begun { IfOk result (λ begun. begun ≡ begun_of (phase_in self.now)) }
        ensures sure { begun_of (phase_in self.now) ≡ None → IsOk result }
    {
        match &self.state {
            RemoverState::Asking { .. } | RemoverState::Finished(_) => Ok(None),
            RemoverState::RowReading { removal, .. }
            | RemoverState::Marking { removal, .. }
            | RemoverState::MarkHelping { removal, .. }
            | RemoverState::Removing { removal, .. }
            | RemoverState::RecDropping(Cut { removal, .. })
            | RemoverState::RecClearing(Cut { removal, .. }) => {
                Ok(Some((removal.call()?, removal.first)))
            }
        }
    }
}

impl Machine for Remover {
    ghost client = { λ remover. remover.client };

    ghost put_index = { λ _. 0 };

    ghost phase = { λ remover. phase_of remover.state };

    fn next_place(&self) -> PlaceNo {
        place_in(&self.state)
    }

    fn ask(&self, last: Ts) -> Result<Ask, NoMemory> {
        ask_in(self.client, last, &self.state)
    }

    fn hear(&mut self, place: PlaceNo, entry: &Entry) -> Result<(), NoMemory> {
        let step = stamp_of(place, entry);
        self.state = after(&self.state, step, ts_of(entry), &entry.answer)?;
        Ok(())
    }

    fn finished(&self) -> Option<&CallDone> {
        match &self.state {
            RemoverState::Finished(done) => Some(done),
            _ => None,
        }
    }
}
