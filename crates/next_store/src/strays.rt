//! The files that clients of a set own.
ghost use Rattle.std.specs.Prelude.{◌≡◌, IfOk, slice_get};
ghost use Rattle.next_steps.specs.ClientSets as sets;
ghost use Rattle.next_rules.specs.Strays as strays;
ghost use Rattle.next_store.specs.Owed.{is_client, owed_in};

use next_ids::{Client, FileId, NoMemory, Node, PlaceNo};
use next_maps::NumberMap;
use next_steps::{ClientSet, FileRec, Stray, StrayList, home_of};
use std::alloc::Global;

// Whether the i-th client of the set is this one.
fn stands_at(clients: &ClientSet, i: usize, client: Client) -> bool
    ensures { result ≡ is_client client (slice_get clients.now i) }
{
    match clients.get(i) {
        Some(held) => held.0 == client.0,
        None => false,
    }
}

// Whether the set has the client.
fn holds(clients: &ClientSet, client: Client) -> bool
    ensures { result ≡ sets.holds clients.now client }
{
    for i in 0..clients.len() {
        if stands_at(clients, i, client) {
            return true;
        }
    }
    false
}

// The file as a stray, if its record lies here and a client of the set owns it.
fn owed(at: PlaceNo, clients: &ClientSet, file: FileId, rec: &FileRec) -> Option<Stray>
    ensures { owed_in result ≡ strays.owed_item at clients.now (strays.file_of_number file.0) rec.now.owner rec.now.home }
{
    let owner = rec.owner?;
    let node = Node::File(file);
    if home_of(node).0 == at.0 && holds(clients, owner) {
        Some(Stray::Owed {
            node,
            owner,
            home: rec.home,
        })
    } else {
        None
    }
}

/// The files of the place that clients of the set own, by rising files.
pub fn owed_files(
    alloc: Global,
    files: &NumberMap<FileRec>,
    at: PlaceNo,
    clients: &ClientSet,
) -> Result<StrayList, NoMemory>
    ensures { IfOk result (λ list. list ≡ strays.owed_files files.now at clients.now) }
{
    let mut list = StrayList::new(alloc);
    for (file, rec) in files.iter() {
        if let Some(stray) = owed(at, clients, FileId(*file), rec) {
            match list.push(stray) {
                Ok(()) => {}
                Err(_) => return Err(NoMemory),
            }
        }
    }
    Ok(list)
}
