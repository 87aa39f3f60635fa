//! The machine of any call.
ghost use Rattle.std.specs.Prelude.{◌≡◌, ◌<◌, IsTrue, IfOk, IsOk, Some, None, true};
ghost use Rattle.cfs_ids.specs.declared.ids.Client.{Client};
ghost use Rattle.cfs_steps.specs.Asks.{place_of};
ghost use Rattle.cfs_steps.specs.Phases.{Phase, Asking, ask_of, has_steps, heard, done_of, is_going, answers};
ghost use Rattle.cfs_rules.specs.Worlds.{begun_of};
ghost use Rattle.cfs_reader.specs.Readers.{is_reading};
ghost use Rattle.cfs_writer.specs.Writers.{is_writing};
ghost use Rattle.cfs_actor.specs.CallMachines.{client_in, index_in, phase_in};

use cfs_ids::{Call, Client, NoMemory, PlaceNo, Stamp, Ts};
use cfs_reader::Reader;
use cfs_steps::{Ask, CallDone, Entry, Machine};
use cfs_writer::Writer;

/// A call on its way.
#[derive(Debug, Drop)]
pub enum CallMachine {
    Reader(Reader),
    Writer(Writer),
}

impl CallMachine {
    /// The call of this client, one whose steps are built, which has made none. A call that writes puts its node in the
    /// shard or store with the index `put_index`, below 64.
    pub fn start(client: Client, call: Call, put_index: u32) -> CallMachine
        requires index { put_index < 64 }
        requires built { has_steps call ≡ true }
        ensures phase { phase_in result ≡ Asking call }
        ensures client { client_in result ≡ client }
        ensures index { IsTrue (is_writing call) → index_in result ≡ put_index }
        ensures none { IsTrue (is_reading call) → index_in result ≡ 0 }
    {
        match &call {
            Call::Lookup { .. } | Call::List { .. } => {
                CallMachine::Reader(Reader::start(client, call))
            }
            Call::Create { .. } | Call::Mkdir { .. } => {
                CallMachine::Writer(Writer::start(client, call, put_index))
            }
            Call::StatRoot
            | Call::Stat { .. }
            | Call::Unlink { .. }
            | Call::Rmdir { .. }
            | Call::Truncate { .. }
            | Call::Rename { .. } => unreachable!(),
        }
    }

    /// The call, where it has made a step and isn't finished, with its first step. The Err is want of memory, and comes
    /// only where there is one.
    pub fn begun(&self) -> Result<Option<(Call, Stamp)>, NoMemory>
        ensures begun { IfOk result (λ begun. begun ≡ begun_of (Some (phase_in self.now))) }
        ensures sure { begun_of (Some (phase_in self.now)) ≡ None → IsOk result }
    {
        match self {
            CallMachine::Reader(_) => Ok(None),
            CallMachine::Writer(writer) => writer.begun(),
        }
    }
}

impl Machine for CallMachine {
    ghost client = { client_in };

    ghost put_index = { index_in };

    ghost phase = { phase_in };

    fn next_place(&self) -> PlaceNo {
        match self {
            CallMachine::Reader(reader) => reader.next_place(),
            CallMachine::Writer(writer) => writer.next_place(),
        }
    }

    fn ask(&self, last: Ts) -> Result<Ask, NoMemory> {
        match self {
            CallMachine::Reader(reader) => reader.ask(last),
            CallMachine::Writer(writer) => writer.ask(last),
        }
    }

    fn hear(&mut self, place: PlaceNo, entry: &Entry) -> Result<(), NoMemory> {
        match self {
            CallMachine::Reader(reader) => reader.hear(place, entry),
            CallMachine::Writer(writer) => writer.hear(place, entry),
        }
    }

    fn finished(&self) -> Option<&CallDone> {
        match self {
            CallMachine::Reader(reader) => reader.finished(),
            CallMachine::Writer(writer) => writer.finished(),
        }
    }
}
