//! The machine of a reading call.
ghost use Rattle.std.specs.Prelude.{◌≡◌, ℕ, IsTrue, IfOk, IfSome, OnOk, OnErr, IsNone, Some, None};
ghost use Rattle.cfs_steps.specs.Asks.{place_of};
ghost use Rattle.cfs_steps.specs.Phases.{Asking, first_ask, replied, heard_first, answers_first, answers, is_going, heard, done_of};
ghost use Rattle.cfs_reader.specs.Readers.{phase_of, is_reading, reads};

use crate::state::ReaderState;
use cfs_ids::{At, Call, Client, Errno, NoMemory, PlaceNo, Reply, Stamp, Ts};
use cfs_steps::{Answer, Ask, CallDone, Entry, Machine};

/// A look-up or a list on its way.
#[derive(Debug, Drop)]
pub struct Reader {
    client: Client,
    state: ReaderState,
    ghost reading: { IsTrue (reads state) },
}

impl Reader {
    ghost use Rattle.cfs_reader.specs.ReaderViews.{client_in, phase_in};

    /// The call of this client, which is a look-up or a list and has made no step.
    pub fn start(client: Client, call: Call) -> Reader
        requires { IsTrue (is_reading call) }
        ensures phase { phase_in result ≡ Asking call }
        ensures client { client_in result ≡ client }
    {
        Reader {
            client,
            state: ReaderState::Asking(call),
        }
    }
}

// The ask of a reading call.
fn ask_of_call(call: &Call) -> Result<Ask, NoMemory>
    requires { IsTrue (is_reading call.now) }
    ensures { IfOk result (λ ask. (client : _) → (index : _) → ask ≡ first_ask client index call.now) }
{
    match call {
        Call::Lookup { dir, name } => Ok(Ask::Read {
            dir: *dir,
            name: name.copy()?,
        }),
        Call::List { dir } => Ok(Ask::List { dir: *dir }),
        _ => unreachable!(),
    }
}

// The place of the ask of a reading call.
fn place_of_call(call: &Call) -> PlaceNo
    requires { IsTrue (is_reading call.now) }
    ensures { (client : _) → (index : _) → result ≡ place_of (first_ask client index call.now) }
{
    match call {
        Call::Lookup { dir, .. } | Call::List { dir } => PlaceNo((dir.0 % 64) as u32),
        _ => unreachable!(),
    }
}

// The reply that the answer gives.
fn reply_to(call: &Call, answer: &Answer) -> Result<Reply, NoMemory>
    requires reading { IsTrue (is_reading call.now) }
    requires listed { IsTrue (answers_first call.now answer.now) }
    ensures { IfOk result (λ reply. (s : _) → heard_first call.now s answer.now ≡ replied call.now s s s reply) }
{
    match (call, answer) {
        (Call::Lookup { .. }, Answer::Found(node, _)) => Ok(Reply::Node(*node)),
        (Call::List { .. }, Answer::Rows(rows)) => Ok(Reply::Rows(rows.copy()?)),
        (Call::Lookup { .. }, Answer::Absent) | (Call::List { .. }, Answer::NoDir) => {
            Ok(Reply::Refused(Errno::Enoent))
        }
        _ => unreachable!(),
    }
}

impl Machine for Reader {
    ghost client = { λ reader. reader.client };

    ghost put_index = { λ _. 0 };

    ghost phase = { λ reader. phase_of reader.state };

    fn next_place(&self) -> PlaceNo {
        match &self.state {
            ReaderState::Asking(call) => place_of_call(call),
            ReaderState::Finished(_) => unreachable!(),
        }
    }

    fn ask(&self, _last: Ts) -> Result<Ask, NoMemory> {
        match &self.state {
            ReaderState::Asking(call) => ask_of_call(call),
            ReaderState::Finished(_) => unreachable!(),
        }
    }

    fn hear(&mut self, place: PlaceNo, entry: &Entry) -> Result<(), NoMemory> {
        let step = Stamp {
            number: entry.number,
            place,
        };
        match &self.state {
            ReaderState::Asking(call) => {
                let reply = reply_to(call, &entry.answer)?;
                let call = call.copy()?;
                self.state = ReaderState::Finished(CallDone {
                    call,
                    first: step,
                    at: At::Before(step),
                    last: step,
                    reply,
                    ts: 0,
                    made: None,
                });
                Ok(())
            }
            ReaderState::Finished(_) => unreachable!(),
        }
    }

    fn finished(&self) -> Option<&CallDone> {
        match &self.state {
            ReaderState::Asking(_) => None,
            ReaderState::Finished(done) => Some(done),
        }
    }
}
