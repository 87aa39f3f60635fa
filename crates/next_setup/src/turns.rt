//! Whose turn it is.
ghost use Rattle.std.specs.Prelude.{◌≡◌, ◌++◌, ◌∷◌, [], length, slice_get, OnOk, OnErr, IfErr};
ghost use Rattle.std.specs.Option.{option_copied};

use next_ids::Actor;
use std::alloc::Global;
use std::marker::Model;

/// Who takes the turns, in order, and how many each takes in a row.
#[derive(Debug, Drop)]
pub struct TurnList {
    turns: Vec<(Actor, u32)>,
}

impl Model for TurnList {
    ghost use Rattle.std.specs.Prelude.{List, ℕ};
    ghost use Rattle.next_ids.specs.declared.ids.Actor.{Actor};

    ghost Value = { List (Actor × ℕ) };

    ghost view = { λ list. list.turns.items };
}

impl TurnList {
    /// No turns.
    pub fn new(alloc: Global) -> TurnList
        ensures { result ≡ [] }
    {
        TurnList {
            turns: Vec::new(alloc),
        }
    }

    /// How many items there are.
    pub fn len(&self) -> usize
        ensures { result ≡ length self.now }
    {
        self.turns.len()
    }

    /// The item at the index. None comes exactly at and past the length.
    pub fn get(&self, i: usize) -> Option<&(Actor, u32)>
        ensures { option_copied result ≡ slice_get self.now i }
    {
        self.turns.get(i)
    }

    /// The items.
    pub fn as_slice(&self) -> &[(Actor, u32)]
        ensures { result.now ≡ self.now }
    {
        self.turns.as_slice()
    }

    /// Adds an item behind the others. The Err is want of memory, and hands the item back.
    pub fn push(&mut self, turns: (Actor, u32)) -> Result<(), (Actor, u32)>
        ensures ok { OnOk result (self.new ≡ self.old ++ turns ∷ []) }
        ensures err { OnErr result (self.new ≡ self.old) }
        ensures back { IfErr result (λ back. back ≡ turns) }
    {
        match self.turns.push(turns) {
            Ok(()) => Ok(()),
            Err(failed) => Err(failed.value),
        }
    }
}
