//! Changes of a directory's attributes that are not yet worked in.
ghost use Rattle.std.specs.Prelude.{◌≡◌, [], ◌∷◌, ◌++◌, length, slice_get, OnOk, OnErr, IfOk, IfErr};
ghost use Rattle.std.specs.Option.{option_copied};

use crate::attributes::Delta;
use crate::memory::NoMemory;
use std::alloc::{AllocError, Global};
use std::marker::Model;

/// Changes of one directory's attributes in the order of their steps.
#[derive(Debug, Drop)]
pub struct DeltaList {
    deltas: Vec<Delta>,
}

impl Model for DeltaList {
    ghost use Rattle.std.specs.Prelude.{List};
    ghost use Rattle.next_ids.specs.declared.attributes.Delta.{Delta};

    ghost Value = { List Delta };

    ghost view = { λ list. list.deltas.items };
}

impl DeltaList {
    /// No deltas.
    pub fn new(alloc: Global) -> DeltaList
        ensures { result ≡ [] }
    {
        DeltaList {
            deltas: Vec::new(alloc),
        }
    }

    /// How many deltas there are.
    pub fn len(&self) -> usize
        ensures { result ≡ length self.now }
    {
        self.deltas.len()
    }

    /// The i-th delta, from 0. None comes exactly at and past the length.
    pub fn get(&self, i: usize) -> Option<&Delta>
        ensures { option_copied result ≡ slice_get self.now i }
    {
        self.deltas.get(i)
    }

    /// The deltas.
    pub fn as_slice(&self) -> &[Delta]
        ensures { result.now ≡ self.now }
    {
        self.deltas.as_slice()
    }

    /// Adds a delta. The Err is want of memory, and hands the delta back.
    pub fn push(&mut self, delta: Delta) -> Result<(), Delta>
        ensures ok { OnOk result (self.new ≡ self.old ++ delta ∷ []) }
        ensures err { OnErr result (self.new ≡ self.old) }
        ensures back { IfErr result (λ back. back ≡ delta) }
    {
        match self.deltas.push(delta) {
            Ok(()) => Ok(()),
            Err(failed) => Err(failed.value),
        }
    }

    /// Takes all deltas away.
    pub fn clear(&mut self)
        ensures { self.new ≡ [] }
    {
        self.deltas.clear();
    }

    /// A copy.
    pub fn copy(&self) -> Result<DeltaList, NoMemory>
        ensures { IfOk result (λ copy. copy ≡ self.now) }
    {
        Ok(self.clone()?)
    }
}

impl Clone for DeltaList {
    ghost is_clone = { λ list copy. copy ≡ list };

    fn clone(&self) -> Result<Self, AllocError> {
        Ok(DeltaList {
            deltas: self.deltas.clone()?,
        })
    }
}
