//! What a reading call asks, and where.
ghost use Rattle.std.specs.Prelude.{◌≡◌, ℕ, IsTrue, IfOk};
ghost use Rattle.next_ids.specs.declared.ids.Client.{Client};
ghost use Rattle.next_ids.specs.declared.time.Ts.{Ts};
ghost use Rattle.next_steps.specs.Asks.{place_of};
ghost use Rattle.next_steps.specs.Calls.{first_ask, ask_of, is_going};
ghost use Rattle.next_reader.specs.Readers.{phase_of, call_of};

use crate::state::{FileStat, ReaderState, Reading};
use next_ids::{DirId, NoMemory, Node, PlaceNo};
use next_steps::{Ask, home_of, shard_of};

// The root, which is named nowhere.
const ROOT: DirId = DirId(0);

// The first ask of a call.
fn first_ask(reading: &Reading) -> Result<Ask, NoMemory>
    ensures { IfOk result (λ ask. (client : Client) → (index : ℕ) → (last : Ts) → ask ≡ first_ask client index last (call_of reading.now)) }
{
    match reading {
        Reading::Lookup { dir, name } | Reading::Stat { dir, name } => Ok(Ask::Read {
            dir: *dir,
            name: name.copy()?,
        }),
        Reading::List { dir } => Ok(Ask::List { dir: *dir }),
        Reading::StatRoot => Ok(Ask::Look {
            dir: ROOT,
            back: None,
        }),
    }
}

// The place of the first ask of a call.
fn first_place(reading: &Reading) -> PlaceNo
    ensures { (client : Client) → (index : ℕ) → (last : Ts) → result ≡ place_of (first_ask client index last (call_of reading.now)) }
{
    match reading {
        Reading::Lookup { dir, .. } | Reading::Stat { dir, .. } | Reading::List { dir } => {
            shard_of(*dir)
        }
        Reading::StatRoot => shard_of(ROOT),
    }
}

/// The ask of a state.
pub fn ask_in(state: &ReaderState) -> Result<Ask, NoMemory>
    requires { IsTrue (is_going (phase_of state.now)) }
    ensures { IfOk result (λ ask. (client : Client) → (index : ℕ) → (last : Ts) → ask ≡ ask_of client index last (phase_of state.now)) }
{
    match state {
        ReaderState::Asking(reading) => first_ask(reading),
        ReaderState::ListHelping { note, .. } | ReaderState::StatHelping { note, .. } => {
            Ok(Ask::Remove { note: note.copy()? })
        }
        ReaderState::RootLooking { .. } => Ok(Ask::Look {
            dir: ROOT,
            back: None,
        }),
        ReaderState::StatReading(stat)
        | ReaderState::StatChecking {
            file: FileStat { stat, .. },
            ..
        } => Ok(Ask::Read {
            dir: stat.dir,
            name: stat.name.copy()?,
        }),
        ReaderState::StatLooking { stat, child } => Ok(Ask::Look {
            dir: *child,
            back: Some((stat.dir, stat.name.copy()?)),
        }),
        ReaderState::StatGetting(file) => Ok(Ask::Get { file: file.file }),
        ReaderState::Finished(_) => unreachable!(),
    }
}

/// The place of the ask of a state.
pub fn place_in(state: &ReaderState) -> PlaceNo
    requires { IsTrue (is_going (phase_of state.now)) }
    ensures { (client : Client) → (index : ℕ) → (last : Ts) → result ≡ place_of (ask_of client index last (phase_of state.now)) }
{
    match state {
        ReaderState::Asking(reading) => first_place(reading),
        ReaderState::ListHelping { note, .. } | ReaderState::StatHelping { note, .. } => {
            shard_of(note.dir)
        }
        ReaderState::RootLooking { .. } => shard_of(ROOT),
        ReaderState::StatReading(stat)
        | ReaderState::StatChecking {
            file: FileStat { stat, .. },
            ..
        } => shard_of(stat.dir),
        ReaderState::StatLooking { child, .. } => shard_of(*child),
        ReaderState::StatGetting(file) => home_of(Node::File(file.file)),
        ReaderState::Finished(_) => unreachable!(),
    }
}
