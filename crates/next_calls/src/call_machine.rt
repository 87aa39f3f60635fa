//! The machine of any call.
ghost use Rattle.std.specs.Prelude.{◌≡◌, ◌<◌, IsTrue, IfOk, IsOk, None};
ghost use Rattle.next_steps.specs.Phases.{Asking};
ghost use Rattle.next_steps.specs.Calls.{begun_of};
ghost use Rattle.next_writer.specs.Jobs.{job_of};
ghost use Rattle.next_writer.specs.Writers.{is_writing};
ghost use Rattle.next_calls.specs.CallMachines.{client_in, index_in, phase_in};

use next_ids::{Call, Client, JobNo, NoMemory, PlaceNo, Stamp, Ts};
use next_reader::Reader;
use next_remover::Remover;
use next_steps::{Ask, CallDone, Entry, Machine};
use next_writer::Writer;

/// A call on its way.
#[derive(Drop)]
pub enum CallMachine {
    Reader(Reader),
    Writer(Writer),
    Remover(Remover),
}

impl CallMachine {
    /// The call of this client, which has made no step. A call that puts a node puts it in the shard or store with the
    /// index `put_index`, below 64.
    pub fn start(client: Client, call: Call, put_index: u32) -> CallMachine
        requires { put_index < 64 }
        ensures phase { phase_in result ≡ Asking call }
        ensures client { client_in result ≡ client }
        ensures index { IsTrue (is_writing call) → index_in result ≡ put_index }
    {
        match &call {
            Call::Lookup { .. } | Call::List { .. } | Call::StatRoot | Call::Stat { .. } => {
                CallMachine::Reader(Reader::start(client, call))
            }
            Call::Create { .. }
            | Call::Mkdir { .. }
            | Call::Unlink { .. }
            | Call::Truncate { .. }
            | Call::Rename { .. } => CallMachine::Writer(Writer::start(client, call, put_index)),
            Call::Rmdir { .. } => CallMachine::Remover(Remover::start(client, call)),
        }
    }

    /// The call, where it has made a step and isn't finished, with its first step. The Err is want of memory, and comes
    /// only where there is one.
    pub fn begun(&self) -> Result<Option<(Call, Stamp)>, NoMemory>
        ensures begun { IfOk result (λ begun. begun ≡ begun_of (phase_in self.now)) }
        ensures sure { begun_of (phase_in self.now) ≡ None → IsOk result }
    {
        match self {
            CallMachine::Reader(reader) => reader.begun(),
            CallMachine::Writer(writer) => writer.begun(),
            CallMachine::Remover(remover) => remover.begun(),
        }
    }

    /// The job that the call has submitted and not collected. None comes exactly where there is none. Only a rename goes
    /// to the Renamer.
    pub fn job(&self) -> Option<JobNo>
        ensures { result ≡ job_of (phase_in self.now) }
    {
        match self {
            CallMachine::Writer(writer) => writer.job(),
            CallMachine::Reader(_) | CallMachine::Remover(_) => None,
        }
    }
}

impl Machine for CallMachine {
    ghost client = { client_in };

    ghost put_index = { index_in };

    ghost phase = { phase_in };

    fn next_place(&self) -> PlaceNo {
        match self {
            CallMachine::Reader(reader) => reader.next_place(),
            CallMachine::Writer(writer) => writer.next_place(),
            CallMachine::Remover(remover) => remover.next_place(),
        }
    }

    fn ask(&self, last: Ts) -> Result<Ask, NoMemory> {
        match self {
            CallMachine::Reader(reader) => reader.ask(last),
            CallMachine::Writer(writer) => writer.ask(last),
            CallMachine::Remover(remover) => remover.ask(last),
        }
    }

    fn hear(&mut self, place: PlaceNo, entry: &Entry) -> Result<(), NoMemory> {
        match self {
            CallMachine::Reader(reader) => reader.hear(place, entry),
            CallMachine::Writer(writer) => writer.hear(place, entry),
            CallMachine::Remover(remover) => remover.hear(place, entry),
        }
    }

    fn finished(&self) -> Option<&CallDone> {
        match self {
            CallMachine::Reader(reader) => reader.finished(),
            CallMachine::Writer(writer) => writer.finished(),
            CallMachine::Remover(remover) => remover.finished(),
        }
    }
}
