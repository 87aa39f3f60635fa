//! The strays of a place that are still to do.
ghost use Rattle.std.specs.Prelude.{◌≡◌, IsTrue, IfOk, slice_get, drop};
ghost use Rattle.next_steps.specs.Asks.{place_of};
ghost use Rattle.next_steps.specs.Rounds.{ask_round, next_item, heard_round_as};
ghost use Rattle.next_collector.specs.Works.{suits, begun, work_after, working};

use crate::work::Work;
use next_ids::{NoMemory, Node, PlaceNo};
use next_steps::{Answer, Ask, Stray, StrayList, drop_of, home_of, shard_of};

/// The strays of a place, and what is asked next about the one at the index. Those before it are done.
#[derive(Drop)]
pub struct Items {
    strays: StrayList,
    index: usize,
    work: Work,
    ghost suited: { IsTrue (suits (slice_get strays index) work) },
}

// The work that a stray begins with.
fn begun(stray: &Stray) -> Work
    ensures { result ≡ begun stray.now }
{
    match stray {
        Stray::Owed { .. } => Work::Naming,
        Stray::Marked(_) => Work::MarkRemoving,
        Stray::Debt { .. } => Work::DebtDropping,
    }
}

// The work after the answer. None comes exactly where the stray is done.
fn work_after(work: Work, answer: &Answer) -> Option<Work>
    ensures { result ≡ work_after work answer.now }
{
    match (work, answer) {
        (Work::Naming, Answer::Yes) => Some(Work::OwnerSettling),
        (Work::Naming, Answer::No) => Some(Work::OwedDropping),
        (Work::Naming, _) => Some(Work::Naming),
        (Work::MarkRemoving, _) => Some(Work::MarkDropping),
        (Work::MarkDropping, _) => Some(Work::MarkClearing),
        (Work::DebtDropping, _) => Some(Work::DebtClearing),
        (Work::OwnerSettling | Work::OwedDropping | Work::MarkClearing | Work::DebtClearing, _) =>
            None,
    }
}

impl Items {
    ghost use Rattle.next_collector.specs.Stages.{items_phase, item_phase};

    /// The strays from the index on. None comes exactly where there are none.
    #[tactic(auto, using(crate::proofs::Dropped::left))]
    pub fn from(strays: StrayList, index: usize) -> Option<Items>
        ensures { (counts : _) → (v : _) → items_phase counts v result ≡ next_item counts v (drop index strays) }
    {
        let work = begun(strays.get(index)?);
        Some(Items {
            strays,
            index,
            work,
        })
    }

    /// What is asked next, where the place of the strays is `at`.
    pub fn ask(&self, at: PlaceNo) -> Result<Ask, NoMemory>
        ensures { (v : _) → v.place ≡ at.0 → IfOk result (λ ask. ask ≡ ask_round (item_phase v self.now)) }
    {
        let stray = self.strays.get(self.index).unwrap();
        match (self.work, stray) {
            (Work::Naming, Stray::Owed { node, home, .. }) => Ok(Ask::Names {
                dir: *home,
                node: *node,
            }),
            (Work::OwnerSettling, Stray::Owed { node, .. }) => Ok(Ask::Settle { node: *node }),
            (Work::OwedDropping, Stray::Owed { node, owner, .. }) => Ok(Ask::DropOwed {
                client: *owner,
                node: *node,
            }),
            (Work::MarkRemoving, Stray::Marked(note)) => Ok(Ask::Remove { note: note.copy()? }),
            (Work::MarkDropping, Stray::Marked(note)) => Ok(Ask::DropRec { dir: note.child }),
            (Work::MarkClearing, Stray::Marked(note)) => Ok(Ask::Clear {
                at: shard_of(note.dir),
                node: Node::Dir(note.child),
            }),
            (Work::DebtDropping, Stray::Debt { node, .. }) => Ok(drop_of(*node)),
            (Work::DebtClearing, Stray::Debt { node, .. }) => Ok(Ask::Clear { at, node: *node }),
            _ => unreachable!(),
        }
    }

    /// The place that is asked next, where the place of the strays is `at`.
    pub fn next_place(&self, at: PlaceNo) -> PlaceNo
        ensures { (v : _) → v.place ≡ at.0 → result ≡ place_of (ask_round (item_phase v self.now)) }
    {
        let stray = self.strays.get(self.index).unwrap();
        match (self.work, stray) {
            (Work::Naming, Stray::Owed { home, .. }) => shard_of(*home),
            (_, Stray::Owed { node, .. }) => home_of(*node),
            (Work::MarkDropping, Stray::Marked(note)) => shard_of(note.child),
            (_, Stray::Marked(note)) => shard_of(note.dir),
            (Work::DebtDropping, Stray::Debt { node, .. }) => home_of(*node),
            (_, Stray::Debt { .. }) => at,
        }
    }

    /// The strays after the answer about the one at the index. None comes exactly where none are left.
    pub fn after(self, answer: &Answer) -> Option<Items>
        ensures { (counts : _) → (v : _) → items_phase counts v result ≡ heard_round_as counts (item_phase v self) answer.now }
    {
        let Items {
            strays,
            index,
            work,
        } = self;
        match work_after(work, answer) {
            Some(work) => Some(Items {
                strays,
                index,
                work,
            }),
            None => Items::from(strays, index + 1),
        }
    }
}
