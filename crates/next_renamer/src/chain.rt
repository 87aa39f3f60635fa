//! The walk upward from a directory.
ghost use Rattle.std.specs.Prelude.{◌≡◌, ◌==◌};

use next_ids::DirId;
use std::marker::Model;

/// A walk upward through the tree. It keeps the directory that it has reached, and none below that one.
#[derive(Clone, Copy)]
pub struct Chain {
    here: DirId,
}

impl Model for Chain {
    ghost use Rattle.next_ids.specs.declared.ids.DirId.{DirId};

    ghost Value = { DirId };

    ghost view = { λ chain. chain.here };

    ghost inverse = { λ here. record { here = here } };
}

impl Chain {
    /// The walk that begins at the directory.
    pub fn start(from: DirId) -> Chain
        ensures { result ≡ from }
    {
        Chain { here: from }
    }

    /// Goes on to the directory in which the one reached is named.
    pub fn up(&mut self, parent: DirId)
        ensures { self.new ≡ parent }
    {
        self.here = parent;
    }

    /// The directory reached.
    pub fn here(&self) -> DirId
        ensures { result ≡ self.now }
    {
        self.here
    }

    /// Whether the directory reached is this one.
    pub fn holds(&self, dir: DirId) -> bool
        ensures { result ≡ (self.now.0 == dir.0) }
    {
        self.here.0 == dir.0
    }
}
