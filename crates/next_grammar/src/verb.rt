//! The names of commands.
ghost use Rattle.std.specs.Prelude.{◌≡◌};
ghost use Rattle.next_grammar.specs.Orders.{verb_of};

/// A command with one path.
#[derive(Clone, Copy, Debug, PartialEq, Eq)]
pub enum PathVerb {
    Lookup,
    List,
    Stat,
    Create,
    Mkdir,
    Unlink,
    Rmdir,
}

/// A command.
#[derive(Clone, Copy, Debug, PartialEq, Eq)]
pub enum Verb {
    OnPath(PathVerb),
    Truncate,
    Rename,
}

/// The command of this name.
#[tactic(auto, unfolding(crate::specs::Orders::verb_of))]
pub fn read_verb(word: &[u8]) -> Option<Verb>
    ensures { result ≡ verb_of word.now }
{
    if word == b"lookup".as_slice() {
        Some(Verb::OnPath(PathVerb::Lookup))
    } else if word == b"list".as_slice() {
        Some(Verb::OnPath(PathVerb::List))
    } else if word == b"stat".as_slice() {
        Some(Verb::OnPath(PathVerb::Stat))
    } else if word == b"create".as_slice() {
        Some(Verb::OnPath(PathVerb::Create))
    } else if word == b"mkdir".as_slice() {
        Some(Verb::OnPath(PathVerb::Mkdir))
    } else if word == b"unlink".as_slice() {
        Some(Verb::OnPath(PathVerb::Unlink))
    } else if word == b"rmdir".as_slice() {
        Some(Verb::OnPath(PathVerb::Rmdir))
    } else if word == b"truncate".as_slice() {
        Some(Verb::Truncate)
    } else if word == b"rename".as_slice() {
        Some(Verb::Rename)
    } else {
        None
    }
}
