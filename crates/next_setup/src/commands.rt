//! Which commands are built.
ghost use Rattle.std.specs.Prelude.{◌≡◌};
ghost use Rattle.next_setup.specs.Built.{is_built};

use next_walk::Command;

/// Whether the command is built: a look-up, a create or a mkdir of any entry, or a list of any path.
pub fn built(command: &Command) -> bool
    ensures { result ≡ is_built command.now }
{
    match command {
        Command::Lookup(path) | Command::Create(path) | Command::Mkdir(path) => path.names_entry(),
        Command::List(path) => path.is_filled(),
        _ => false,
    }
}
