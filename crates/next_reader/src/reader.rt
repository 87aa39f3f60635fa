//! The machine of a reading call.
ghost use Rattle.std.specs.Prelude.{◌≡◌, ℕ, IsTrue, IfOk, IsOk, None, Some};
ghost use Rattle.next_steps.specs.Phases.{Asking};
ghost use Rattle.next_steps.specs.Calls.{begun_of};
ghost use Rattle.next_reader.specs.Readers.{phase_of, is_reading, call_of};

use crate::asks::{ask_in, place_in};
use crate::heard::after;
use crate::state::{FileStat, ReaderState, Reading};
use next_ends::stamp_of;
use next_ids::{Call, Client, NoMemory, PlaceNo, Stamp, Ts};
use next_steps::{Ask, CallDone, Entry, Machine};

/// A look-up, list, stat of the root or stat on its way.
#[derive(Drop)]
pub struct Reader {
    client: Client,
    state: ReaderState,
}

// The call as one that reads.
fn reading_of(call: Call) -> Reading
    requires { IsTrue (is_reading call) }
    ensures { call_of result ≡ call }
{
    match call {
        Call::Lookup { dir, name } => Reading::Lookup { dir, name },
        Call::List { dir } => Reading::List { dir },
        Call::StatRoot => Reading::StatRoot,
        Call::Stat { dir, name } => Reading::Stat { dir, name },
        _ => unreachable!(),
    }
}

impl Reader {
    ghost use Rattle.next_reader.specs.ReaderViews.{client_in, phase_in};

    /// The call of this client, which is a look-up, list, stat of the root or stat, and has made no step.
    pub fn start(client: Client, call: Call) -> Reader
        requires { IsTrue (is_reading call) }
        ensures phase { phase_in result ≡ Asking call }
        ensures client { client_in result ≡ client }
    {
        Reader {
            client,
            state: ReaderState::Asking(reading_of(call)),
        }
    }

    /// The call, where it has made a step and isn't finished, with its first step. The Err is want of memory, and comes
    /// only where there is one.
    pub fn begun(&self) -> Result<Option<(Call, Stamp)>, NoMemory>
        ensures begun { IfOk result (λ begun. begun ≡ begun_of (phase_in self.now)) }
        ensures sure { begun_of (phase_in self.now) ≡ None → IsOk result }
    {
        match &self.state {
            ReaderState::Asking(_) | ReaderState::Finished(_) => Ok(None),
            ReaderState::ListHelping { dir, first, .. } => Ok(Some((
                Call::List { dir: *dir },
                *first,
            ))),
            ReaderState::RootLooking { first } => Ok(Some((Call::StatRoot, *first))),
            ReaderState::StatReading(stat)
            | ReaderState::StatLooking { stat, .. }
            | ReaderState::StatHelping { stat, .. }
            | ReaderState::StatGetting(FileStat { stat, .. })
            | ReaderState::StatChecking {
                file: FileStat { stat, .. },
                ..
            } => Ok(Some((stat.call()?, stat.first))),
        }
    }
}

impl Machine for Reader {
    ghost client = { λ reader. reader.client };

    ghost put_index = { λ _. 0 };

    ghost phase = { λ reader. phase_of reader.state };

    fn next_place(&self) -> PlaceNo {
        place_in(&self.state)
    }

    fn ask(&self, _last: Ts) -> Result<Ask, NoMemory> {
        ask_in(&self.state)
    }

    fn hear(&mut self, place: PlaceNo, entry: &Entry) -> Result<(), NoMemory> {
        self.state = after(&self.state, stamp_of(place, entry), &entry.answer)?;
        Ok(())
    }

    fn finished(&self) -> Option<&CallDone> {
        match &self.state {
            ReaderState::Finished(done) => Some(done),
            _ => None,
        }
    }
}
