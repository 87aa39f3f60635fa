//! The machine of a writing call.
ghost use Rattle.std.specs.Prelude.{◌≡◌, ◌<◌, ◌+◌, ℕ, IsTrue, IfOk, IsOk, OnOk, OnErr, IsNone, Some, None};
ghost use Rattle.cfs_steps.specs.Asks.{place_of, home_of};
ghost use Rattle.cfs_steps.specs.Phases.{Asking, Finished, maker, replied, moved as moved_phase, heard_insert, answers_insert, is_going, first_ask, ask_of, heard_as, answers, heard, done_of};
ghost use Rattle.cfs_rules.specs.Worlds.{begun_of};
ghost use Rattle.cfs_writer.specs.Writers.{phase_of, is_writing, writes};

use crate::state::{Creation, WriterState};
use cfs_ids::{At, Call, Client, Errno, NoMemory, Node, PlaceNo, Reply, Stamp, Ts};
use cfs_steps::{Answer, Ask, CallDone, Entry, Machine, home_of, maker, shard_of};

/// A create or mkdir on its way. `put_index` is the index of the store of its file, or of the shard of its directory.
#[derive(Debug, Drop)]
pub struct Writer {
    client: Client,
    put_index: u32,
    state: WriterState,
    ghost writing: { IsTrue (writes state) },
    ghost small: { put_index < 64 },
}

impl Writer {
    ghost use Rattle.cfs_writer.specs.WriterViews.{client_in, index_in, phase_in};

    /// The call of this client, which is a create or mkdir and has made no step.
    pub fn start(client: Client, call: Call, put_index: u32) -> Writer
        requires writing { IsTrue (is_writing call) }
        requires small { put_index < 64 }
        ensures phase { phase_in result ≡ Asking call }
        ensures client { client_in result ≡ client }
        ensures put_index { index_in result ≡ put_index }
    {
        Writer {
            client,
            put_index,
            state: WriterState::Asking(call),
        }
    }

    /// The call, where it has made a step and isn't finished, with its first step. The Err is want of memory, and comes
    /// only where there is one.
    pub fn begun(&self) -> Result<Option<(Call, Stamp)>, NoMemory>
        ensures begun { IfOk result (λ begun. begun ≡ begun_of (Some (phase_in self.now))) }
        ensures sure { begun_of (Some (phase_in self.now)) ≡ None → IsOk result }
    {
        match &self.state {
            WriterState::Asking(_) | WriterState::Finished(_) => Ok(None),
            WriterState::Inserting { creation, .. }
            | WriterState::Settling { creation, .. }
            | WriterState::TakingBack { creation, .. } => {
                Ok(Some((
                    maker(creation.dir, &creation.name, creation.node)?,
                    creation.first,
                )))
            }
        }
    }
}

// The ask that puts the node of a call.
fn put_ask(client: Client, put_index: u32, call: &Call) -> Result<Ask, NoMemory>
    requires writing { IsTrue (is_writing call.now) }
    requires small { put_index < 64 }
    ensures { IfOk result (λ ask. ask ≡ first_ask client put_index call.now) }
{
    match call {
        Call::Create { dir, .. } => Ok(Ask::Put {
            client,
            at: PlaceNo(64 + put_index),
            home: *dir,
        }),
        Call::Mkdir { dir, name } => Ok(Ask::PutDir {
            client,
            at: PlaceNo(put_index),
            dir: *dir,
            name: name.copy()?,
        }),
        _ => unreachable!(),
    }
}

// The ask of a state.
fn ask_in(client: Client, put_index: u32, state: &WriterState) -> Result<Ask, NoMemory>
    requires going { IsTrue (is_going (phase_of state.now)) }
    requires writing { IsTrue (writes state.now) }
    requires small { put_index < 64 }
    ensures { IfOk result (λ ask. ask ≡ ask_of client put_index (phase_of state.now)) }
{
    match state {
        WriterState::Asking(call) => put_ask(client, put_index, call),
        WriterState::Finished(_) => unreachable!(),
        WriterState::Inserting { creation, ts } => Ok(Ask::Insert {
            client,
            dir: creation.dir,
            name: creation.name.copy()?,
            node: creation.node,
            ts: *ts,
        }),
        WriterState::Settling { creation, .. } => Ok(Ask::Settle {
            node: creation.node,
        }),
        WriterState::TakingBack { creation, .. } => Ok(Ask::TakeBack {
            client,
            node: creation.node,
        }),
    }
}

// The place that puts the node of a call.
fn put_place(put_index: u32, call: &Call) -> PlaceNo
    requires writing { IsTrue (is_writing call.now) }
    requires small { put_index < 64 }
    ensures { (client : _) → result ≡ place_of (first_ask client put_index call.now) }
{
    match call {
        Call::Create { .. } => PlaceNo(64 + put_index),
        Call::Mkdir { .. } => PlaceNo(put_index),
        _ => unreachable!(),
    }
}

// The place of the ask of a state.
fn place_in(put_index: u32, state: &WriterState) -> PlaceNo
    requires going { IsTrue (is_going (phase_of state.now)) }
    requires writing { IsTrue (writes state.now) }
    requires small { put_index < 64 }
    ensures { (client : _) → result ≡ place_of (ask_of client put_index (phase_of state.now)) }
{
    match state {
        WriterState::Asking(call) => put_place(put_index, call),
        WriterState::Finished(_) => unreachable!(),
        WriterState::Inserting { creation, .. } => shard_of(creation.dir),
        WriterState::Settling { creation, .. } | WriterState::TakingBack { creation, .. } => {
            home_of(creation.node)
        }
    }
}

// The state after the put.
fn after_put(call: &Call, step: Stamp, answer: &Answer) -> Result<WriterState, NoMemory>
    requires writing { IsTrue (is_writing call.now) }
    requires listed { IsTrue (answers (Asking call.now) answer.now) }
    ensures state { IfOk result (λ state. phase_of state ≡ heard_as (Asking call.now) step answer.now) }
    ensures writing { IfOk result (λ state. IsTrue (writes state)) }
{
    let (dir, name, node) = match (call, answer) {
        (Call::Create { dir, name }, Answer::New(node @ Node::File(_))) => (*dir, name, *node),
        (Call::Mkdir { dir, name }, Answer::New(node @ Node::Dir(_))) => (*dir, name, *node),
        _ => unreachable!(),
    };
    let name = name.copy()?;
    let creation = Creation {
        dir,
        name,
        node,
        first: step,
    };
    Ok(WriterState::Inserting {
        creation,
        ts: step.number,
    })
}

impl Creation {
    // A copy.
    fn copy(&self) -> Result<Creation, NoMemory>
        ensures { IfOk result (λ copy. copy ≡ self.now) }
    {
        Ok(Creation {
            dir: self.dir,
            name: self.name.copy()?,
            node: self.node,
            first: self.first,
        })
    }

    // The call, ended without a move: its reply holds before the step `at`.
    fn refused(&self, errno: Errno, at: Stamp, last: Stamp) -> Result<CallDone, NoMemory>
        ensures { IfOk result (λ done. Finished done ≡ replied (maker self.now.dir self.now.name self.now.node) self.now.first at last (Reply.Refused errno)) }
    {
        Ok(CallDone {
            call: maker(self.dir, &self.name, self.node)?,
            first: self.first,
            at: At::Before(at),
            last,
            reply: Reply::Refused(errno),
            ts: 0,
            made: None,
        })
    }

    // The call, ended with its move at the step `at`.
    fn moved(&self, ts: Ts, at: Stamp, last: Stamp) -> Result<CallDone, NoMemory>
        ensures { IfOk result (λ done. Finished done ≡ moved_phase self.now.dir self.now.name self.now.node ts self.now.first at last) }
    {
        Ok(CallDone {
            call: maker(self.dir, &self.name, self.node)?,
            first: self.first,
            at: At::Step(at),
            last,
            reply: Reply::Moved,
            ts,
            made: Some(self.node),
        })
    }
}

// The state after the insert.
fn after_insert(
    creation: &Creation,
    ts: Ts,
    step: Stamp,
    answer: &Answer,
) -> Result<WriterState, NoMemory>
    requires { IsTrue (answers_insert answer.now) }
    ensures state { IfOk result (λ state. phase_of state ≡ heard_insert creation.now.dir creation.now.name creation.now.node ts creation.now.first step answer.now) }
    ensures writing { IfOk result (λ state. IsTrue (writes state)) }
{
    let creation = creation.copy()?;
    match answer {
        Answer::Done(_) => Ok(WriterState::Settling {
            creation,
            ts,
            at: step,
        }),
        Answer::Exists => Ok(WriterState::TakingBack {
            creation,
            errno: Errno::Eexist,
            at: step,
        }),
        Answer::NoDir => Ok(WriterState::TakingBack {
            creation,
            errno: Errno::Enoent,
            at: step,
        }),
        _ => unreachable!(),
    }
}

// The state after a step.
fn state_after(state: &WriterState, step: Stamp, answer: &Answer) -> Result<WriterState, NoMemory>
    requires writing { IsTrue (writes state.now) }
    requires listed { IsTrue (answers (phase_of state.now) answer.now) }
    ensures state { IfOk result (λ after. phase_of after ≡ heard_as (phase_of state.now) step answer.now) }
    ensures writing { IfOk result (λ after. IsTrue (writes after)) }
{
    match state {
        WriterState::Asking(call) => after_put(call, step, answer),
        WriterState::Inserting { creation, ts } => after_insert(creation, *ts, step, answer),
        WriterState::Settling { creation, ts, at } => {
            Ok(WriterState::Finished(creation.moved(*ts, *at, step)?))
        }
        WriterState::TakingBack {
            creation,
            errno,
            at,
        } => Ok(WriterState::Finished(creation.refused(*errno, *at, step)?)),
        WriterState::Finished(_) => unreachable!(),
    }
}

impl Machine for Writer {
    ghost client = { λ writer. writer.client };

    ghost put_index = { λ writer. writer.put_index };

    ghost phase = { λ writer. phase_of writer.state };

    fn next_place(&self) -> PlaceNo {
        place_in(self.put_index, &self.state)
    }

    fn ask(&self, _last: Ts) -> Result<Ask, NoMemory> {
        ask_in(self.client, self.put_index, &self.state)
    }

    fn hear(&mut self, place: PlaceNo, entry: &Entry) -> Result<(), NoMemory> {
        let step = Stamp {
            number: entry.number,
            place,
        };
        self.state = state_after(&self.state, step, &entry.answer)?;
        Ok(())
    }

    fn finished(&self) -> Option<&CallDone> {
        match &self.state {
            WriterState::Finished(done) => Some(done),
            _ => None,
        }
    }
}
