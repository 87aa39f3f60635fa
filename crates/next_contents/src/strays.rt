//! What clients of a set left in a shard.
ghost use Rattle.std.specs.Prelude.{◌≡◌, ◌++◌, IfOk, OnOk, flat_map, slice_get};
ghost use Rattle.std.specs.FinMap as map;
ghost use Rattle.next_steps.specs.ClientSets as sets;
ghost use Rattle.next_rules.specs.Strays.{dir_of_number, file_of_number, home_in, owed_item, owed_dirs, marked_item, marked_dirs, debt_item, debts_left};
ghost use Rattle.next_contents.specs.Left.{is_client, left_in};
ghost use Rattle.next_contents.specs.Shown.{contents_of, place_of};

use crate::contents::Contents;
use next_ids::{Actor, Client, DirId, FileId, NoMemory, Node, PlaceNo};
use next_maps::NumberMap;
use next_steps::{ClientSet, Debt, DirRec, Stray, StrayList, home_of};

// Whether the i-th client of the set is this one.
fn stands_at(clients: &ClientSet, i: usize, client: Client) -> bool
    ensures { result ≡ is_client client (slice_get clients.now i) }
{
    match clients.get(i) {
        Some(held) => held.0 == client.0,
        None => false,
    }
}

// Whether the set has the client.
fn holds(clients: &ClientSet, client: Client) -> bool
    ensures { result ≡ sets.holds clients.now client }
{
    for i in 0..clients.len() {
        if stands_at(clients, i, client) {
            return true;
        }
    }
    false
}

// Adds what was left, if anything was.
fn push(list: &mut StrayList, stray: Option<Stray>) -> Result<(), NoMemory>
    ensures { OnOk result (list.new ≡ list.old ++ left_in stray) }
{
    let Some(stray) = stray else {
        return Ok(());
    };
    match list.push(stray) {
        Ok(()) => Ok(()),
        Err(_) => Err(NoMemory),
    }
}

// The directory, if its record lies here and a client of the set owns it, with the directory where it is meant to be
// named.
fn owed(at: PlaceNo, clients: &ClientSet, dir: DirId, rec: &DirRec) -> Option<Stray>
    ensures { left_in result ≡ owed_item at clients.now (dir_of_number dir.0) rec.now.owner (home_in rec.now.back) }
{
    let owner = rec.owner?;
    let home = match &rec.back {
        Some((home, _)) => *home,
        None => DirId(0),
    };
    let node = Node::Dir(dir);
    if home_of(node).0 == at.0 && holds(clients, owner) {
        Some(Stray::Owed { node, owner, home })
    } else {
        None
    }
}

// The mark of a directory, if its record lies here and the mark is of a client of the set.
fn marked(
    at: PlaceNo,
    clients: &ClientSet,
    dir: DirId,
    rec: &DirRec,
) -> Result<Option<Stray>, NoMemory>
    ensures { IfOk result (λ stray. left_in stray ≡ marked_item at clients.now (dir_of_number dir.0) rec.now.mark) }
{
    let Some(note) = &rec.mark else {
        return Ok(None);
    };
    if home_of(Node::Dir(dir)).0 == at.0 && holds(clients, note.owner) {
        Ok(Some(Stray::Marked(note.copy()?)))
    } else {
        Ok(None)
    }
}

// The node, if a client of the set has this debt for it.
fn in_debt(clients: &ClientSet, node: Node, debt: Debt) -> Option<Stray>
    ensures { left_in result ≡ debt_item clients.now node debt.owner }
{
    match debt.owner {
        Actor::Client(owner) if holds(clients, owner) => Some(Stray::Debt { node, owner }),
        _ => None,
    }
}

/// Adds the files that clients of the set have debts for.
pub fn push_files(
    list: &mut StrayList,
    clients: &ClientSet,
    debts: &NumberMap<Debt>,
) -> Result<(), NoMemory>
    ensures { OnOk result (list.new ≡ list.old ++ flat_map (λ e. debt_item clients.now (file_of_number e.0) e.1.owner) (map.entries debts.now)) }
{
    for (file, debt) in debts.iter() {
        push(list, in_debt(clients, Node::File(FileId(*file)), *debt))?;
    }
    Ok(())
}

/// Adds the directories that clients of the set have debts for.
pub fn push_dirs(
    list: &mut StrayList,
    clients: &ClientSet,
    debts: &NumberMap<Debt>,
) -> Result<(), NoMemory>
    ensures { OnOk result (list.new ≡ list.old ++ flat_map (λ e. debt_item clients.now (dir_of_number e.0) e.1.owner) (map.entries debts.now)) }
{
    for (dir, debt) in debts.iter() {
        push(list, in_debt(clients, Node::Dir(DirId(*dir)), *debt))?;
    }
    Ok(())
}

impl Contents {
    // Adds the directories that clients of the set own.
    fn push_owed(&self, list: &mut StrayList, clients: &ClientSet) -> Result<(), NoMemory>
        ensures { OnOk result (list.new ≡ list.old ++ owed_dirs (contents_of self.now) (place_of self.now) clients.now) }
    {
        let at = self.place();
        for (dir, rec) in self.table.recs() {
            push(list, owed(at, clients, DirId(*dir), rec))?;
        }
        Ok(())
    }

    // Adds the marks of clients of the set.
    fn push_marked(&self, list: &mut StrayList, clients: &ClientSet) -> Result<(), NoMemory>
        ensures { OnOk result (list.new ≡ list.old ++ marked_dirs (contents_of self.now) (place_of self.now) clients.now) }
    {
        let at = self.place();
        for (dir, rec) in self.table.recs() {
            push(list, marked(at, clients, DirId(*dir), rec)?)?;
        }
        Ok(())
    }

    /// What clients of the set left here: the records that they own, their marks and their debts, each by rising numbers,
    /// and files before directories. The Err is want of memory.
    pub fn strays(&self, clients: &ClientSet) -> Result<StrayList, NoMemory>
        ensures { let s = contents_of self.now in let at = place_of self.now in IfOk result (λ list. list ≡ owed_dirs s at clients.now ++ (marked_dirs s at clients.now ++ debts_left s at clients.now)) }
    {
        let mut list = StrayList::new(self.alloc);
        self.push_owed(&mut list, clients)?;
        self.push_marked(&mut list, clients)?;
        self.debts.push_left(&mut list, clients)?;
        Ok(list)
    }
}
