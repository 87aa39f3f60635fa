//! The commands that wait.
ghost use Rattle.std.specs.Prelude.{◌≡◌, [], ◌∷◌, ◌++◌, OnOk, OnErr, MatchOption, slice_get};
ghost use Rattle.std.specs.Option.{option_copied};
ghost use Rattle.next_actor.specs.Left.{no_commands};

use next_ids::NoMemory;
use next_walk::Command;
use std::alloc::Global;
use std::collections::VecDeque;
use std::marker::Model;

/// Commands that a client has still to carry out, the next one first.
#[derive(Debug, Drop)]
pub struct CommandQueue {
    commands: VecDeque<Command>,
}

impl Model for CommandQueue {
    ghost use Rattle.std.specs.Prelude.{List};
    ghost use Rattle.next_walk.specs.declared.command.Command.{Command};

    ghost Value = { List Command };

    ghost view = { λ queue. queue.commands.items };
}

impl CommandQueue {
    /// No commands.
    pub fn new(alloc: Global) -> CommandQueue
        ensures { result ≡ [] }
    {
        CommandQueue {
            commands: VecDeque::new(alloc),
        }
    }

    /// Whether no command waits.
    pub fn is_empty(&self) -> bool
        ensures { result ≡ no_commands self.now }
    {
        self.commands.is_empty()
    }

    /// The next command. None comes exactly where no command waits.
    pub fn first(&self) -> Option<&Command>
        ensures { option_copied result ≡ slice_get self.now 0 }
    {
        self.commands.front()
    }

    /// Adds a command after the others.
    pub fn push(&mut self, command: Command) -> Result<(), NoMemory>
        ensures ok { OnOk result (self.new ≡ self.old ++ command ∷ []) }
        ensures err { OnErr result (self.new ≡ self.old) }
    {
        self.commands.push_back(command)?;
        Ok(())
    }

    /// Takes the next command. None comes exactly where no command waits.
    pub fn take(&mut self) -> Option<Command>
        ensures { MatchOption result ((self.old ≡ []) × (self.new ≡ [])) (λ command. self.old ≡ command ∷ self.new) }
    {
        self.commands.pop_front()
    }
}
