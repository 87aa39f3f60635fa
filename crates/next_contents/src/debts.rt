//! The debts of a place.
ghost use Rattle.std.specs.Prelude.{◌≡◌, ◌++◌, flat_map, Some, OnOk, OnErr, IfOk, IsOk, IsSome};
ghost use Rattle.std.specs.Option.{option_map};
ghost use Rattle.std.specs.Ordering.{nat_cmp};
ghost use Rattle.std.specs.Cmp.Lexicographic.{slice_cmp};
ghost use Rattle.std.specs.FinMap as map;
ghost use Rattle.next_ids.specs.Maps.{within};
ghost use Rattle.next_maps.specs.Walks.{entries_after, first_of};
ghost use Rattle.next_rules.specs.Contents.{node_key, debt_key, node_of_key};
ghost use Rattle.next_rules.specs.Strays.{debt_item};
ghost use Rattle.next_table.specs.Flat.{keyed};
ghost use Rattle.next_contents.specs.Owed.{single, by_node, debts_of};

use crate::strays::{push_dirs, push_files};
use next_ids::{DirId, FileId, NoMemory, Node, PlaceNo};
use next_maps::NumberMap;
use next_steps::{ClientSet, Debt, StrayList};
use std::alloc::Global;

/// For each node that lost its name in a place, the debt that the step left there.
#[derive(Drop)]
pub struct Debts {
    place: PlaceNo,
    files: NumberMap<Debt>,
    dirs: NumberMap<Debt>,
}

// Sets the debt at a number.
fn set_in(debts: &mut NumberMap<Debt>, number: u64, debt: Debt) -> Result<Option<Debt>, NoMemory>
    ensures ok { OnOk result (debts.new ≡ map.insert debts.old number debt) }
    ensures before { IfOk result (λ before. before ≡ map.get debts.old number) }
    ensures err { OnErr result (debts.new ≡ debts.old) }
    ensures there { IsSome (map.get debts.old number) → IsOk result }
{
    match debts.set(number, debt) {
        Ok(before) => Ok(before),
        Err(_) => Err(NoMemory),
    }
}

impl Debts {
    /// No debts, in the place.
    #[tactic(auto, using(crate::proofs::Owing::owing))]
    pub fn new(alloc: Global, place: PlaceNo) -> Debts
        ensures debts { debts_of result ≡ map.empty }
        ensures place { result.place ≡ place }
    {
        Debts {
            place,
            files: NumberMap::new(alloc),
            dirs: NumberMap::new(alloc),
        }
    }

    /// The place.
    pub fn place(&self) -> PlaceNo
        ensures { result ≡ self.now.place }
    {
        self.place
    }

    /// The debt of the node. None comes exactly where there is none.
    #[tactic(auto, using(crate::proofs::Owing::owing))]
    pub fn get(&self, node: Node) -> Option<Debt>
        ensures { result ≡ map.get (debts_of self.now) (debt_key self.now.place node) }
    {
        match node {
            Node::File(file) => self.files.get(file.0).copied(),
            Node::Dir(dir) => self.dirs.get(dir.0).copied(),
        }
    }

    /// Sets the debt of the node, and answers what stood there. The Err is want of memory for a new debt: the debts are
    /// as before.
    #[tactic(auto, using(crate::proofs::Owing::owing))]
    pub fn set(&mut self, node: Node, debt: Debt) -> Result<Option<Debt>, NoMemory>
        ensures ok { OnOk result (debts_of self.new ≡ map.insert (debts_of self.old) (debt_key self.old.place node) debt) }
        ensures place { self.new.place ≡ self.old.place }
        ensures before { IfOk result (λ before. before ≡ map.get (debts_of self.old) (debt_key self.old.place node)) }
        ensures err { OnErr result (self.new ≡ self.old) }
        ensures there { IsSome (map.get (debts_of self.old) (debt_key self.old.place node)) → IsOk result }
    {
        match node {
            Node::File(file) => set_in(&mut self.files, file.0, debt),
            Node::Dir(dir) => set_in(&mut self.dirs, dir.0, debt),
        }
    }

    /// Takes the debt of the node out, and answers what stood there. None comes exactly where there was none.
    #[tactic(auto, using(crate::proofs::Owing::owing))]
    pub fn cut(&mut self, node: Node) -> Option<Debt>
        ensures debts { debts_of self.new ≡ map.remove (debts_of self.old) (debt_key self.old.place node) }
        ensures place { self.new.place ≡ self.old.place }
        ensures before { result ≡ map.get (debts_of self.old) (debt_key self.old.place node) }
    {
        match node {
            Node::File(file) => self.files.cut(file.0),
            Node::Dir(dir) => self.dirs.cut(dir.0),
        }
    }

    // The first debt of a directory above `after`, or of all directories.
    fn next_dir(&self, after: Option<u64>) -> Option<(Node, Debt)>
        ensures { option_map (λ e. (node_key e.0, e.1)) result ≡ first_of (keyed 1 (single (entries_after nat_cmp after (map.entries self.now.dirs)))) }
    {
        match self.dirs.next(after) {
            Some((dir, debt)) => Some((Node::Dir(DirId(dir)), *debt)),
            None => None,
        }
    }

    // The first debt of a file above `after`, or of all files, and where there is none the first of a directory.
    fn next_file(&self, after: Option<u64>) -> Option<(Node, Debt)>
        ensures { option_map (λ e. (node_key e.0, e.1)) result ≡ first_of (by_node (entries_after nat_cmp after (map.entries self.now.files)) (map.entries self.now.dirs)) }
    {
        match self.files.next(after) {
            Some((file, debt)) => Some((Node::File(FileId(file)), *debt)),
            None => self.next_dir(None),
        }
    }

    // The first debt above that of the node. None comes exactly where there is none.
    fn next_above(&self, node: Node) -> Option<(Node, Debt)>
        ensures { option_map (λ e. (debt_key self.now.place e.0, e.1)) result ≡ first_of (entries_after (slice_cmp nat_cmp) (Some (debt_key self.now.place node)) (map.entries (debts_of self.now))) }
    {
        match node {
            Node::File(file) => self.next_file(Some(file.0)),
            Node::Dir(dir) => self.next_dir(Some(dir.0)),
        }
    }

    /// The first debt above that of the node, or the first of all: files before directories, and each by rising numbers.
    /// None comes exactly where there is none.
    pub fn next(&self, after: Option<Node>) -> Option<(Node, Debt)>
        ensures { option_map (λ e. (debt_key self.now.place e.0, e.1)) result ≡ first_of (entries_after (slice_cmp nat_cmp) (option_map (debt_key self.now.place) after) (map.entries (debts_of self.now))) }
    {
        match after {
            Some(node) => self.next_above(node),
            None => self.next_file(None),
        }
    }

    /// Adds the nodes that clients of the set have debts for. The Err is want of memory.
    pub fn push_left(&self, list: &mut StrayList, clients: &ClientSet) -> Result<(), NoMemory>
        ensures { OnOk result (list.new ≡ list.old ++ flat_map (λ e. debt_item clients.now (node_of_key e.0) e.1.owner) (within self.now.place.0 (map.entries (debts_of self.now)))) }
    {
        push_files(list, clients, &self.files)?;
        push_dirs(list, clients, &self.dirs)?;
        Ok(())
    }
}
