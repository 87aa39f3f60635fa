//! The positions of a run's steps.
ghost use Rattle.std.specs.Prelude.{◌≡◌, ◌<◌, ◌^◌, length, reverse, IfOk};
ghost use Rattle.next_rules.specs.Histories.{position_of, point_of, move_from, own_move, or_later};
ghost use Rattle.next_history.specs.Indexes.{Follows};

use crate::same_calls::is_call;
use next_ids::{At, Call, Client, NoMemory, Node, PlaceNo, Stamp, Ts};
use next_steps::{Entry, Moved};
use std::alloc::Global;
use std::collections::BTreeMap;

/// A run with the position of each step by its stamp. Of two steps with one stamp the newer counts.
#[derive(Drop)]
pub(crate) struct Index<'a> {
    run: &'a [(PlaceNo, Entry)],
    positions: BTreeMap<Stamp, u64>,
    ghost fits: { length run.now < 2 ^ 64 },
    ghost follows: { Follows ⟦<Stamp as Ord>⟧.cmp positions (reverse run.now) },
}

// The positions of the run's steps.
fn positions_of(alloc: Global, run: &[(PlaceNo, Entry)]) -> Result<BTreeMap<Stamp, u64>, NoMemory>
    ensures { IfOk result (λ positions. Follows ⟦<Stamp as Ord>⟧.cmp positions (reverse run.now)) }
{
    let mut positions = BTreeMap::new(alloc);
    for (position, (place, entry)) in run.iter().enumerate() {
        let stamp = Stamp {
            number: entry.number,
            place: *place,
        };
        positions.insert(stamp, position as u64)?;
    }
    Ok(positions)
}

// The move of an entry at the position, where it is that of the client's call.
fn own_move(
    client: Client,
    call: &Call,
    position: u64,
    moved: &Option<Moved>,
) -> Option<(u64, Ts, Option<Node>)>
    ensures { result ≡ own_move client call.now position moved.now }
{
    match moved {
        Some(Moved::Move(moved)) if moved.client == client && is_call(&moved.call, call) => {
            Some((position, moved.ts, moved.made))
        }
        _ => None,
    }
}

impl<'a> Index<'a> {
    ghost use Rattle.next_history.specs.Indexed.{run_of};

    /// The index of the run.
    pub(crate) fn of(alloc: Global, run: &'a [(PlaceNo, Entry)]) -> Result<Index<'a>, NoMemory>
        ensures { IfOk result (λ index. run_of index ≡ reverse run.now) }
    {
        Ok(Index {
            run,
            positions: positions_of(alloc, run)?,
        })
    }

    /// The position of the step with the stamp, and 0 where there is none.
    pub(crate) fn position(&self, stamp: Stamp) -> u64
        ensures { result ≡ position_of stamp (run_of self.now) }
    {
        self.positions.get(&stamp).copied().unwrap_or(0)
    }

    /// The point of a reply: the position of its step, or the one after it.
    pub(crate) fn point(&self, at: At) -> u64
        ensures { result ≡ point_of at (run_of self.now) }
    {
        match at {
            At::Step(stamp) | At::Before(stamp) => self.position(stamp),
            At::After(stamp) => self.position(stamp) + 1,
        }
    }

    /// The first move of the client's call at this position or a later one: its position, its time and what it made.
    pub(crate) fn move_from(
        &self,
        client: Client,
        call: &Call,
        first: u64,
    ) -> Option<(u64, Ts, Option<Node>)>
        ensures { result ≡ move_from client call.now first (run_of self.now) }
    {
        let mut found = None;
        for (position, (_, entry)) in self.run.iter().enumerate() {
            let position = position as u64;
            if found.is_none() && first <= position {
                found = own_move(client, call, position, &entry.moved);
            }
        }
        found
    }
}
