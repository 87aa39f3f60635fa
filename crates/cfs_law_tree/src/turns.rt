//! Lists of turns.
ghost use Rattle.std.specs.Prelude.{◌≡◌, ◌≢◌, ◌≤◌, ◌+◌, Ok, ℕ, List, IsTrue, map, replicate};
ghost use Rattle.std.specs.List.{list_all};
ghost use Rattle.cfs_ids.specs.Namespace.{IsWhole};
ghost use Rattle.cfs_rules.specs.Facts.{CountsHold, AttributesHold};
ghost use Rattle.cfs_rules.specs.Trees.{tree};
ghost use Rattle.cfs_rules.specs.Worlds.{Setup, run_of};
ghost use Rattle.cfs_core.specs.Clients.{number_in};
ghost use Rattle.cfs_core.specs.Cores.{counts_of, world_of, members_of, steps_of};
ghost use Rattle.cfs_setup.specs.Lists.{turns_in, count_in};
ghost use Rattle.cfs_law_tree.specs.Drives.{is_turn_of, are_turns_of, IsPlayed, StopsIn, StopsFull, world_at};

use cfs_core::{Core, Turned};
use cfs_ids::{Actor, NoMemory, PlaceNo};
use cfs_setup::TurnList;

/// What a list of turns came to.
#[derive(Clone, Copy, Debug, PartialEq, Eq)]
pub enum Driven {
    /// All turns were made.
    Done,
    /// The log of the place that a turn asks has 1,048,576 entries. The turns before it were made.
    Full(PlaceNo),
}

// Makes so many turns of one actor, as `drive` does.
fn repeat(core: &mut Core, actor: Actor, count: u32) -> Result<Driven, NoMemory>
    requires { IsTrue (is_turn_of (members_of core.old) actor) }
    ensures done { result ≡ Ok Driven.Done → world_of core.new ≡ run_of (counts_of core.old) (map number_in (replicate count actor)) (world_of core.old) }
    ensures stopped { result ≢ Ok Driven.Done → StopsIn (counts_of core.old) (map number_in (replicate count actor)) (world_of core.old) (world_of core.new) }
    ensures full { (place : _) → result ≡ Ok (Driven.Full place) → StopsFull (counts_of core.old) (replicate count actor) (world_of core.old) core.new place }
    ensures many { (place : _) → result ≡ Ok (Driven.Full place) → 1048576 ≤ steps_of core.new }
    ensures steps { steps_of core.new ≤ steps_of core.old + count }
    ensures members { members_of core.new ≡ members_of core.old }
    ensures places { counts_of core.new ≡ counts_of core.old }
{
    for made in 0..count {
        match core.turn(actor)? {
            Turned::Stepped | Turned::Idle => {}
            Turned::Full(place) => return Ok(Driven::Full(place)),
        }
    }
    Ok(Driven::Done)
}

/// Makes the listed turns of clients of the core, each turn of a client that has ended without effect, up to the first
/// whose place has a full log. The Err is want of memory. On Full and on Err the core is that of the turns before.
pub fn drive(core: &mut Core, turns: &TurnList) -> Result<Driven, NoMemory>
    requires { IsTrue (list_all (are_turns_of (members_of core.old)) turns.now) }
    ensures done { result ≡ Ok Driven.Done → world_of core.new ≡ run_of (counts_of core.old) (map number_in (turns_in turns.now)) (world_of core.old) }
    ensures stopped { result ≢ Ok Driven.Done → StopsIn (counts_of core.old) (map number_in (turns_in turns.now)) (world_of core.old) (world_of core.new) }
    ensures full { (place : _) → result ≡ Ok (Driven.Full place) → StopsFull (counts_of core.old) (turns_in turns.now) (world_of core.old) core.new place }
    ensures many { (place : _) → result ≡ Ok (Driven.Full place) → 1048576 ≤ steps_of core.new }
    ensures steps { steps_of core.new ≤ steps_of core.old + count_in turns.now }
    ensures members { members_of core.new ≡ members_of core.old }
    ensures places { counts_of core.new ≡ counts_of core.old }

    // At every step of a run each directory counts its rows, each row's node has a record, and the tree is whole.
    ensures counts { (setup : Setup) (before : List ℕ) → IsPlayed setup before core.old → (n : ℕ) → CountsHold (world_at core.old (turns_in turns.now) n).shard }
    ensures attributes { (setup : Setup) (before : List ℕ) → IsPlayed setup before core.old → (n : ℕ) → AttributesHold (world_at core.old (turns_in turns.now) n).shard (world_at core.old (turns_in turns.now) n).store }
    ensures whole { (setup : Setup) (before : List ℕ) → IsPlayed setup before core.old → (n : ℕ) → IsWhole (tree (world_at core.old (turns_in turns.now) n).shard (world_at core.old (turns_in turns.now) n).store) }
{
    for listed in turns.as_slice() {
        match repeat(core, listed.0, listed.1)? {
            Driven::Done => {}
            Driven::Full(place) => return Ok(Driven::Full(place)),
        }
    }
    Ok(Driven::Done)
}
