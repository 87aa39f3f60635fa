//! Replies.
ghost use Rattle.std.specs.Prelude.{◌≡◌, [], ◌∷◌, ◌++◌, length, slice_get, OnOk, OnErr};
ghost use Rattle.std.specs.Option.{option_copied};

use next_ids::{NoMemory, Reply};
use std::alloc::Global;
use std::marker::Model;

/// Replies in order.
#[derive(Debug, Drop)]
pub struct ReplyList {
    replies: Vec<Reply>,
}

impl Model for ReplyList {
    ghost use Rattle.std.specs.Prelude.{List};
    ghost use Rattle.next_ids.specs.declared.call.Reply.{Reply};

    ghost Value = { List Reply };

    ghost view = { λ list. list.replies.items };
}

impl ReplyList {
    /// No replies.
    pub fn new(alloc: Global) -> ReplyList
        ensures { result ≡ [] }
    {
        ReplyList {
            replies: Vec::new(alloc),
        }
    }

    /// How many replies there are.
    pub fn len(&self) -> usize
        ensures { result ≡ length self.now }
    {
        self.replies.len()
    }

    /// The i-th reply, from 0. None comes exactly at and past the length.
    pub fn get(&self, i: usize) -> Option<&Reply>
        ensures { option_copied result ≡ slice_get self.now i }
    {
        self.replies.get(i)
    }

    /// Adds a copy of the reply. The Err is want of memory, and leaves the list as before.
    pub fn add(&mut self, reply: &Reply) -> Result<(), NoMemory>
        ensures ok { OnOk result (self.new ≡ self.old ++ reply.now ∷ []) }
        ensures err { OnErr result (self.new ≡ self.old) }
    {
        let copy = reply.copy()?;
        self.replies.push(copy)?;
        Ok(())
    }
}
