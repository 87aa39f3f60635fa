//! The rows of a directory, as a reply shows them.
ghost use Rattle.std.specs.Prelude.{◌≡◌, ◌++◌, ◌∷◌, [], length, slice_get, OnOk, IfOk, IfErr, OnErr, Some, None};
ghost use Rattle.std.specs.Option.{option_copied};
ghost use Rattle.next_ids.specs.Rows.{IsAbove};

use crate::ids::Node;
use crate::memory::NoMemory;
use crate::name::Name;
use std::alloc::{AllocError, Global};
use std::marker::Model;

/// Names by rising bytes, each with its node.
#[derive(Debug, Drop)]
pub struct RowList {
    rows: Vec<(Name, Node)>,
}

impl Model for RowList {
    ghost use Rattle.std.specs.Prelude.{List, ℕ};
    ghost use Rattle.next_ids.specs.declared.ids.Node.{Node};

    ghost Value = { List (List ℕ × Node) };

    ghost view = { λ list. list.rows.items };
}

impl RowList {
    /// No rows.
    pub fn new(alloc: Global) -> RowList
        ensures { result ≡ [] }
    {
        RowList {
            rows: Vec::new(alloc),
        }
    }

    /// How many rows there are.
    pub fn len(&self) -> usize
        ensures { result ≡ length self.now }
    {
        self.rows.len()
    }

    /// The row at the index. None comes exactly at and past the length.
    pub fn get(&self, i: usize) -> Option<&(Name, Node)>
        ensures { option_copied result ≡ slice_get self.now i }
    {
        self.rows.get(i)
    }

    /// The rows.
    pub fn as_slice(&self) -> &[(Name, Node)]
        ensures { result.now ≡ self.now }
    {
        self.rows.as_slice()
    }

    /// Adds a row, whose name is above the last. The Err is want of memory, and hands the row back.
    pub fn push(&mut self, row: (Name, Node)) -> Result<(), (Name, Node)>
        requires { IsAbove self.old row.0 }
        ensures ok { OnOk result (self.new ≡ self.old ++ row ∷ []) }
        ensures err { OnErr result (self.new ≡ self.old) }
        ensures back { IfErr result (λ back. back ≡ row) }
    {
        match self.rows.push(row) {
            Ok(()) => Ok(()),
            Err(failed) => Err(failed.value),
        }
    }

    /// A copy.
    pub fn copy(&self) -> Result<RowList, NoMemory>
        ensures { IfOk result (λ copy. copy ≡ self.now) }
    {
        Ok(self.clone()?)
    }
}

impl Clone for RowList {
    ghost is_clone = { λ list copy. copy ≡ list };

    fn clone(&self) -> Result<Self, AllocError> {
        Ok(RowList {
            rows: self.rows.clone()?,
        })
    }
}
