//! Lists of commands' replies.
ghost use Rattle.std.specs.Prelude.{◌≡◌, ◌++◌, ◌∷◌, [], length, slice_get, OnOk, OnErr, IfErr};
ghost use Rattle.std.specs.Option.{option_copied};

use crate::commands::CommandReply;
use std::alloc::Global;
use std::marker::Model;

/// Commands and their replies, in the order in which they are printed.
#[derive(Debug, Drop)]
pub struct ReplyTable {
    replies: Vec<CommandReply>,
}

impl Model for ReplyTable {
    ghost use Rattle.std.specs.Prelude.{List};
    ghost use Rattle.next_print.specs.declared.commands.CommandReply.{CommandReply};

    ghost Value = { List CommandReply };

    ghost view = { λ table. table.replies.items };
}

impl ReplyTable {
    /// No commands.
    pub fn new(alloc: Global) -> ReplyTable
        ensures { result ≡ [] }
    {
        ReplyTable {
            replies: Vec::new(alloc),
        }
    }

    /// How many commands there are.
    pub fn len(&self) -> usize
        ensures { result ≡ length self.now }
    {
        self.replies.len()
    }

    /// The i-th command, from 0. None comes exactly at and past the length.
    pub fn get(&self, i: usize) -> Option<&CommandReply>
        ensures { option_copied result ≡ slice_get self.now i }
    {
        self.replies.get(i)
    }

    /// The commands.
    pub fn as_slice(&self) -> &[CommandReply]
        ensures { result.now ≡ self.now }
    {
        self.replies.as_slice()
    }

    /// Adds a command, the last. The Err is want of memory, and hands the command back.
    pub fn push(&mut self, reply: CommandReply) -> Result<(), CommandReply>
        ensures ok { OnOk result (self.new ≡ self.old ++ reply ∷ []) }
        ensures err { OnErr result (self.new ≡ self.old) }
        ensures back { IfErr result (λ back. back ≡ reply) }
    {
        match self.replies.push(reply) {
            Ok(()) => Ok(()),
            Err(failed) => Err(failed.value),
        }
    }
}
