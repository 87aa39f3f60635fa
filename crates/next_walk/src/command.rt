//! Commands.
ghost use Rattle.std.specs.Prelude.{◌≡◌, ◌++◌, ◌∷◌, [], length, slice_get, OnOk, OnErr, IfOk, IfErr};
ghost use Rattle.std.specs.Option.{option_copied};
ghost use Rattle.next_walk.specs.Commands.{is_in_form};
ghost use Rattle.next_walk.specs.Walks.{has_too_long};

use crate::path::Path;
use next_ids::NoMemory;
use std::alloc::Global;
use std::marker::Model;

/// What a client is told to do. A command in form has no empty component, and the root in `list` and `stat` alone.
#[derive(Clone, Debug, Drop)]
pub enum Command {
    /// The node of a path (POSIX.1-2017, Base Definitions, 4.13 Pathname Resolution).
    Lookup(Path),
    /// The rows of a directory (POSIX.1-2017, opendir and readdir).
    List(Path),
    /// The attributes of a node (POSIX.1-2017, stat).
    Stat(Path),
    /// A new file (POSIX.1-2017, open with O_CREAT and O_EXCL).
    Create(Path),
    /// A new directory (POSIX.1-2017, mkdir).
    Mkdir(Path),
    /// A file's name goes (POSIX.1-2017, unlink).
    Unlink(Path),
    /// An empty directory goes (POSIX.1-2017, rmdir).
    Rmdir(Path),
    /// A file's size becomes this many bytes, at most 2^63 - 1 (POSIX.1-2017, truncate).
    Truncate(Path, u64),
    /// The first path's node gets the second path (POSIX.1-2017, rename).
    Rename(Path, Path),
}

impl Command {
    /// A copy. The Err is want of memory.
    pub fn copy(&self) -> Result<Command, NoMemory>
        ensures { IfOk result (λ copy. copy ≡ self.now) }
    {
        Ok(self.clone()?)
    }

    /// Whether the command is in form.
    pub fn is_in_form(&self) -> bool
        ensures { result ≡ is_in_form self.now }
    {
        match self {
            Command::List(path) | Command::Stat(path) => path.is_filled(),
            Command::Lookup(path)
            | Command::Create(path)
            | Command::Mkdir(path)
            | Command::Unlink(path)
            | Command::Rmdir(path)
            | Command::Truncate(path, _) => path.names_entry(),
            Command::Rename(path, to) => path.names_entry() && to.names_entry(),
        }
    }

    /// Whether a component of the command's paths has over 255 bytes, more than a name may.
    pub fn has_too_long(&self) -> bool
        ensures { result ≡ has_too_long self.now }
    {
        match self {
            Command::Lookup(path)
            | Command::List(path)
            | Command::Stat(path)
            | Command::Create(path)
            | Command::Mkdir(path)
            | Command::Unlink(path)
            | Command::Rmdir(path)
            | Command::Truncate(path, _) => path.is_too_long(),
            Command::Rename(path, to) => path.is_too_long() || to.is_too_long(),
        }
    }
}

/// The commands of a client, in the order in which it carries them out.
#[derive(Debug, Drop)]
pub struct CommandList {
    commands: Vec<Command>,
}

impl Model for CommandList {
    ghost use Rattle.std.specs.Prelude.{List};
    ghost use Rattle.next_walk.specs.declared.command.Command.{Command};

    ghost Value = { List Command };

    ghost view = { λ list. list.commands.items };
}

impl CommandList {
    /// No commands.
    pub fn new(alloc: Global) -> CommandList
        ensures { result ≡ [] }
    {
        CommandList {
            commands: Vec::new(alloc),
        }
    }

    /// How many commands there are.
    pub fn len(&self) -> usize
        ensures { result ≡ length self.now }
    {
        self.commands.len()
    }

    /// The command at the index. None comes exactly at and past the length.
    pub fn get(&self, i: usize) -> Option<&Command>
        ensures { option_copied result ≡ slice_get self.now i }
    {
        self.commands.get(i)
    }

    /// The commands.
    pub fn as_slice(&self) -> &[Command]
        ensures { result.now ≡ self.now }
    {
        self.commands.as_slice()
    }

    /// Adds a command behind the others. The Err is want of memory, and hands the command back.
    pub fn push(&mut self, command: Command) -> Result<(), Command>
        ensures ok { OnOk result (self.new ≡ self.old ++ command ∷ []) }
        ensures err { OnErr result (self.new ≡ self.old) }
        ensures back { IfErr result (λ back. back ≡ command) }
    {
        match self.commands.push(command) {
            Ok(()) => Ok(()),
            Err(failed) => Err(failed.value),
        }
    }
}
