//! What clients left unfinished in a place.
ghost use Rattle.std.specs.Prelude.{◌≡◌, [], ◌∷◌, ◌++◌, length, slice_get, OnOk, OnErr, IfOk, IfErr};
ghost use Rattle.std.specs.Option.{option_copied};

use next_ids::{Client, DirId, MarkNote, NoMemory, Node};
use std::alloc::{AllocError, Global};
use std::marker::Model;

/// One thing that a client left.
#[derive(Debug, Drop)]
pub enum Stray {
    /// A record that the client owns, and the directory in which the client meant to name the node.
    Owed {
        node: Node,
        owner: Client,
        home: DirId,
    },
    /// A marked directory.
    Marked(MarkNote),
    /// A node without a name, whose record the client has still to remove.
    Debt {
        node: Node,
        owner: Client,
    },
}

impl Clone for Stray {
    ghost is_clone = { λ stray copy. copy ≡ stray };

    fn clone(&self) -> Result<Self, AllocError> {
        match self {
            Stray::Owed { node, owner, home } => Ok(Stray::Owed {
                node: *node,
                owner: *owner,
                home: *home,
            }),
            Stray::Marked(note) => {
                let note = note.clone()?;
                Ok(Stray::Marked(note))
            }
            Stray::Debt { node, owner } => Ok(Stray::Debt {
                node: *node,
                owner: *owner,
            }),
        }
    }
}

/// What clients left in a place, in order.
#[derive(Debug, Drop)]
pub struct StrayList {
    strays: Vec<Stray>,
}

impl Model for StrayList {
    ghost use Rattle.std.specs.Prelude.{List};
    ghost use Rattle.next_steps.specs.declared.strays.Stray.{Stray};

    ghost Value = { List Stray };

    ghost view = { λ list. list.strays.items };
}

impl StrayList {
    /// No strays.
    pub fn new(alloc: Global) -> StrayList
        ensures { result ≡ [] }
    {
        StrayList {
            strays: Vec::new(alloc),
        }
    }

    /// How many strays there are.
    pub fn len(&self) -> usize
        ensures { result ≡ length self.now }
    {
        self.strays.len()
    }

    /// The i-th stray, from 0. None comes exactly at and past the length.
    pub fn get(&self, i: usize) -> Option<&Stray>
        ensures { option_copied result ≡ slice_get self.now i }
    {
        self.strays.get(i)
    }

    /// Adds a stray. The Err is want of memory, and hands the stray back.
    pub fn push(&mut self, stray: Stray) -> Result<(), Stray>
        ensures ok { OnOk result (self.new ≡ self.old ++ stray ∷ []) }
        ensures err { OnErr result (self.new ≡ self.old) }
        ensures back { IfErr result (λ back. back ≡ stray) }
    {
        match self.strays.push(stray) {
            Ok(()) => Ok(()),
            Err(failed) => Err(failed.value),
        }
    }

    /// A copy.
    pub fn copy(&self) -> Result<StrayList, NoMemory>
        ensures { IfOk result (λ copy. copy ≡ self.now) }
    {
        Ok(self.clone()?)
    }
}

impl Clone for StrayList {
    ghost is_clone = { λ list copy. copy ≡ list };

    fn clone(&self) -> Result<Self, AllocError> {
        Ok(StrayList {
            strays: self.strays.clone()?,
        })
    }
}
