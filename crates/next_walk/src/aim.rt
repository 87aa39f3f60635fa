//! What a command does at the end of its path.
ghost use Rattle.std.specs.Prelude.{◌≡◌};
ghost use Rattle.next_walk.specs.Stages.{call_of};

use next_ids::{Call, DirId, Name};
use std::collections::VecDeque;

/// The calls of one name.
#[derive(Clone, Copy, Debug)]
pub enum NameCall {
    Lookup,
    Stat,
    Create,
    Mkdir,
    Unlink,
    Rmdir,
}

impl NameCall {
    /// The call of this name in this directory.
    pub fn of(self, dir: DirId, name: Name) -> Call
        ensures { result ≡ call_of self dir name }
    {
        match self {
            NameCall::Lookup => Call::Lookup { dir, name },
            NameCall::Stat => Call::Stat { dir, name },
            NameCall::Create => Call::Create { dir, name },
            NameCall::Mkdir => Call::Mkdir { dir, name },
            NameCall::Unlink => Call::Unlink { dir, name },
            NameCall::Rmdir => Call::Rmdir { dir, name },
        }
    }
}

/// What a command does at the last name of its path.
#[derive(Debug, Drop)]
pub enum Aim {
    /// It makes a call of the name.
    Call(NameCall),
    /// It lists the directory that has the name.
    List,
    /// It makes the file that has the name this many bytes long.
    Truncate(u64),
    /// It gives what has the name the name that another path ends in, whose components these are.
    Rename(VecDeque<Name>),
}
