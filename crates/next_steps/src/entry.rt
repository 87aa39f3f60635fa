//! The entries of a log.
ghost use Rattle.std.specs.Prelude.{◌≡◌, IfOk};

use crate::answer::Answer;
use crate::ask::Ask;
use crate::moves::Moved;
use next_ids::{Actor, NoMemory};
use std::alloc::AllocError;

/// One step of an actor on a place: the number of the step, the moment that it was made at, what was asked and answered,
/// and what it changed in the namespace.
#[derive(Debug, Drop)]
pub struct Entry {
    pub actor: Actor,
    pub number: u64,
    pub moment: u64,
    pub ask: Ask,
    pub answer: Answer,
    pub moved: Option<Moved>,
}

// A copy of what a step changed.
fn copy_moved(moved: &Option<Moved>) -> Result<Option<Moved>, AllocError>
    ensures { IfOk result (λ copy. copy ≡ moved.now) }
{
    match moved {
        Some(moved) => Ok(Some(moved.clone()?)),
        None => Ok(None),
    }
}

impl Entry {
    /// A copy.
    pub fn copy(&self) -> Result<Entry, NoMemory>
        ensures { IfOk result (λ copy. copy ≡ self.now) }
    {
        Ok(self.clone()?)
    }
}

impl Clone for Entry {
    ghost is_clone = { λ entry copy. copy ≡ entry };

    fn clone(&self) -> Result<Self, AllocError> {
        let ask = self.ask.clone()?;
        let answer = self.answer.clone()?;
        let moved = copy_moved(&self.moved)?;
        Ok(Entry {
            actor: self.actor,
            number: self.number,
            moment: self.moment,
            ask,
            answer,
            moved,
        })
    }
}
