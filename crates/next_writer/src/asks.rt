//! What a writing call asks, and where.
ghost use Rattle.std.specs.Prelude.{◌≡◌, ◌<◌, IsTrue, IfOk};
ghost use Rattle.next_ids.specs.declared.ids.Client.{Client};
ghost use Rattle.next_ids.specs.declared.time.Ts.{Ts};
ghost use Rattle.next_steps.specs.Asks.{place_of};
ghost use Rattle.next_steps.specs.declared.ask.Ask.TheVariants.{Submit};
ghost use Rattle.next_steps.specs.Calls.{first_rename, first_ask, ask_of, is_going};
ghost use Rattle.next_steps.specs.Writers.{dir_of};
ghost use Rattle.next_writer.specs.Writers.{phase_of, call_of};

use crate::calls::{Names, Writing};
use crate::state::WriterState;
use next_ids::{Call, Client, DirId, NoMemory, Node, PlaceNo, Ts};
use next_steps::{Ask, home_of, shard_of};

// The place of the desk.
const DESK: PlaceNo = PlaceNo(128);

// The directory in whose shard an unlink or rename leaves its debt.
fn dir_of(call: &Call) -> DirId
    ensures { result ≡ dir_of call.now }
{
    match call {
        Call::Lookup { dir, .. }
        | Call::List { dir }
        | Call::Stat { dir, .. }
        | Call::Create { dir, .. }
        | Call::Mkdir { dir, .. }
        | Call::Unlink { dir, .. }
        | Call::Rmdir { dir, .. }
        | Call::Rename { dir, .. } => *dir,
        Call::StatRoot | Call::Truncate { .. } => DirId(0),
    }
}

// The ask that hands a rename to the Renamer.
fn submit(client: Client, names: &Names, ts: Ts) -> Result<Ask, NoMemory>
    ensures { IfOk result (λ ask. ask ≡ Submit client names.now.dir names.now.name names.now.to_dir names.now.to_name ts) }
{
    let name = names.name.copy()?;
    let to_name = names.to_name.copy()?;
    Ok(Ask::Submit {
        client,
        dir: names.dir,
        name,
        to_dir: names.to_dir,
        to_name,
        ts,
    })
}

// The first ask of a rename.
fn first_rename(client: Client, names: &Names, last: Ts) -> Result<Ask, NoMemory>
    ensures { IfOk result (λ ask. ask ≡ first_rename client last names.now.dir names.now.name names.now.to_dir names.now.to_name) }
{
    if names.dir.0 != names.to_dir.0 {
        return submit(client, names, last);
    }
    let name = names.name.copy()?;
    let to_name = names.to_name.copy()?;
    Ok(Ask::Swap {
        client,
        dir: names.dir,
        name,
        to_name,
        ts: last,
    })
}

// The first ask of a call.
fn first_ask(client: Client, put_index: u32, last: Ts, writing: &Writing) -> Result<Ask, NoMemory>
    requires { put_index < 64 }
    ensures { IfOk result (λ ask. ask ≡ first_ask client put_index last (call_of writing.now)) }
{
    match writing {
        Writing::Create { dir, .. } => Ok(Ask::Put {
            client,
            at: PlaceNo(64 + put_index),
            home: *dir,
        }),
        Writing::Mkdir { dir, name } => Ok(Ask::PutDir {
            client,
            at: PlaceNo(put_index),
            dir: *dir,
            name: name.copy()?,
        }),
        Writing::Unlink { dir, name } => Ok(Ask::Delete {
            client,
            dir: *dir,
            name: name.copy()?,
            ts: last,
        }),
        Writing::Truncate { file, size } => Ok(Ask::SetSize {
            client,
            file: *file,
            size: *size,
            ts: last,
        }),
        Writing::Rename(names) => first_rename(client, names, last),
    }
}

/// The ask of a state.
pub fn ask_in(
    client: Client,
    put_index: u32,
    last: Ts,
    state: &WriterState,
) -> Result<Ask, NoMemory>
    requires going { IsTrue (is_going (phase_of state.now)) }
    requires small { put_index < 64 }
    ensures { IfOk result (λ ask. ask ≡ ask_of client put_index last (phase_of state.now)) }
{
    match state {
        WriterState::Asking(writing) => first_ask(client, put_index, last, writing),
        WriterState::Inserting { making, ts } => Ok(Ask::Insert {
            client,
            dir: making.dir,
            name: making.name.copy()?,
            node: making.node,
            ts: *ts,
        }),
        WriterState::Settling { making, .. } => Ok(Ask::Settle { node: making.node }),
        WriterState::MakeHelping { note, .. } => Ok(Ask::Remove { note: note.copy()? }),
        WriterState::TakingBack { making, .. } => Ok(Ask::TakeBack {
            client,
            node: making.node,
        }),
        WriterState::Dropping(taking) => Ok(Ask::Drop { file: taking.file }),
        WriterState::Clearing(taking) => Ok(Ask::Clear {
            at: shard_of(dir_of(&taking.call)),
            node: Node::File(taking.file),
        }),
        WriterState::Submitting(renaming) => submit(client, &renaming.names, renaming.ts),
        WriterState::Collecting { job, .. } => Ok(Ask::Collect { job: *job }),
        WriterState::Finished(_) => unreachable!(),
    }
}

// The place of the first ask of a call.
fn first_place(put_index: u32, writing: &Writing) -> PlaceNo
    requires { put_index < 64 }
    ensures { (client : Client) → (last : Ts) → result ≡ place_of (first_ask client put_index last (call_of writing.now)) }
{
    match writing {
        Writing::Create { .. } => PlaceNo(64 + put_index),
        Writing::Mkdir { .. } => PlaceNo(put_index),
        Writing::Unlink { dir, .. } => shard_of(*dir),
        Writing::Truncate { file, .. } => home_of(Node::File(*file)),
        Writing::Rename(names) => {
            if names.dir.0 == names.to_dir.0 {
                shard_of(names.dir)
            } else {
                DESK
            }
        }
    }
}

/// The place of the ask of a state.
pub fn place_in(put_index: u32, state: &WriterState) -> PlaceNo
    requires going { IsTrue (is_going (phase_of state.now)) }
    requires small { put_index < 64 }
    ensures { (client : Client) → (last : Ts) → result ≡ place_of (ask_of client put_index last (phase_of state.now)) }
{
    match state {
        WriterState::Asking(writing) => first_place(put_index, writing),
        WriterState::Inserting { making, .. } => shard_of(making.dir),
        WriterState::Settling { making, .. } | WriterState::TakingBack { making, .. } => {
            home_of(making.node)
        }
        WriterState::MakeHelping { note, .. } => shard_of(note.dir),
        WriterState::Dropping(taking) => home_of(Node::File(taking.file)),
        WriterState::Clearing(taking) => shard_of(dir_of(&taking.call)),
        WriterState::Submitting(_) | WriterState::Collecting { .. } => DESK,
        WriterState::Finished(_) => unreachable!(),
    }
}
