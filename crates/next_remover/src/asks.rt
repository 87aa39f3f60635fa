//! What a rmdir asks, and where.
ghost use Rattle.std.specs.Prelude.{◌≡◌, ℕ, IsTrue, IfOk};
ghost use Rattle.next_ids.specs.declared.ids.Client.{Client};
ghost use Rattle.next_ids.specs.declared.time.Ts.{Ts};
ghost use Rattle.next_steps.specs.Asks.{place_of};
ghost use Rattle.next_steps.specs.Calls.{ask_of, is_going};
ghost use Rattle.next_steps.specs.Removers.{ask_removing, note_of};
ghost use Rattle.next_steps.specs.Phases.{Marking};
ghost use Rattle.next_remover.specs.Removers.{phase_of};

use crate::state::{Removal, RemoverState};
use next_ids::{Client, DirId, MarkNote, NoMemory, Node, PlaceNo, Ts};
use next_steps::{Ask, shard_of};

// The mark of the client's directory. The first one takes the time `last`, and the others have that of the first.
fn mark(
    client: Client,
    last: Ts,
    removal: &Removal,
    child: DirId,
    ts: Option<Ts>,
) -> Result<Ask, NoMemory>
    ensures { IfOk result (λ ask. ask ≡ ask_removing client last (Marking removal.now.dir removal.now.name child ts removal.now.first)) }
{
    let name = removal.name.copy()?;
    Ok(Ask::Mark {
        client,
        child,
        dir: removal.dir,
        name,
        ts: ts.unwrap_or(last),
    })
}

// The note of the client's own mark.
fn note_of(client: Client, removal: &Removal, child: DirId, ts: Ts) -> Result<MarkNote, NoMemory>
    ensures { IfOk result (λ note. note ≡ note_of client removal.now.dir removal.now.name child ts) }
{
    Ok(MarkNote {
        owner: client,
        child,
        dir: removal.dir,
        name: removal.name.copy()?,
        ts,
    })
}

/// The ask of a state.
pub fn ask_in(client: Client, last: Ts, state: &RemoverState) -> Result<Ask, NoMemory>
    requires { IsTrue (is_going (phase_of state.now)) }
    ensures { IfOk result (λ ask. (index : ℕ) → ask ≡ ask_of client index last (phase_of state.now)) }
{
    match state {
        RemoverState::Asking { dir, name } => Ok(Ask::Read {
            dir: *dir,
            name: name.copy()?,
        }),
        RemoverState::RowReading { removal, .. } => Ok(Ask::Read {
            dir: removal.dir,
            name: removal.name.copy()?,
        }),
        RemoverState::Marking { removal, child, ts } => mark(client, last, removal, *child, *ts),
        RemoverState::MarkHelping { note, .. } => Ok(Ask::Remove { note: note.copy()? }),
        RemoverState::Removing { removal, child, ts } => Ok(Ask::Remove {
            note: note_of(client, removal, *child, *ts)?,
        }),
        RemoverState::RecDropping(cut) => Ok(Ask::DropRec { dir: cut.child }),
        RemoverState::RecClearing(cut) => Ok(Ask::Clear {
            at: shard_of(cut.removal.dir),
            node: Node::Dir(cut.child),
        }),
        RemoverState::Finished(_) => unreachable!(),
    }
}

/// The place of the ask of a state.
pub fn place_in(state: &RemoverState) -> PlaceNo
    requires { IsTrue (is_going (phase_of state.now)) }
    ensures { (client : Client) → (index : ℕ) → (last : Ts) → result ≡ place_of (ask_of client index last (phase_of state.now)) }
{
    match state {
        RemoverState::Asking { dir, .. } => shard_of(*dir),
        RemoverState::RowReading { removal, .. } | RemoverState::Removing { removal, .. } => {
            shard_of(removal.dir)
        }
        RemoverState::Marking { child, .. } => shard_of(*child),
        RemoverState::MarkHelping { note, .. } => shard_of(note.dir),
        RemoverState::RecDropping(cut) => shard_of(cut.child),
        RemoverState::RecClearing(cut) => shard_of(cut.removal.dir),
        RemoverState::Finished(_) => unreachable!(),
    }
}
