//! The words behind `client`.
ghost use Rattle.std.specs.Prelude.{◌≡◌, ◌≢◌, ◌<◌, ◌≤◌, IfOk, IsTrue, Err, None, true, false, if◌then◌else◌};
ghost use Rattle.next_walk.specs.Commands.{is_in_form};
ghost use Rattle.next_grammar.specs.declared.fault.Fault.TheVariants.{BadCommand, BadNumber};
ghost use Rattle.next_grammar.specs.Words.{words, only, pair};
ghost use Rattle.next_grammar.specs.Numbers.{client_of};
ghost use Rattle.next_grammar.specs.Orders.{verb_of, may_be_root, on_path, path_said, truncate_said, rename_said, command_said, ordered, order_said};
ghost use Rattle.next_grammar.specs.Paths.{path_of, place_of};
ghost use Rattle.next_grammar.specs.Outcomes.{GivesCommand};

use crate::fault::{Fault, Refusal};
use crate::numbers::{read_client, read_size};
use crate::paths::{read_path, read_place};
use crate::verb::{PathVerb, Verb, read_verb};
use crate::words::{cut_word, only_word, two_words};
use next_ids::{Client, NoMemory};
use next_walk::{Command, Path};
use std::alloc::Global;

/// A command of a client.
#[derive(Debug, Drop)]
pub struct Order {
    pub client: Client,
    pub command: Command,
}

fn root_too(verb: PathVerb) -> bool
    ensures { result ≡ may_be_root verb }
{
    matches!(verb, PathVerb::List | PathVerb::Stat)
}

fn on(verb: PathVerb, path: Path) -> Command
    ensures { result ≡ on_path verb path }
{
    match verb {
        PathVerb::Lookup => Command::Lookup(path),
        PathVerb::List => Command::List(path),
        PathVerb::Stat => Command::Stat(path),
        PathVerb::Create => Command::Create(path),
        PathVerb::Mkdir => Command::Mkdir(path),
        PathVerb::Unlink => Command::Unlink(path),
        PathVerb::Rmdir => Command::Rmdir(path),
    }
}

// The path of a text, where the command may have it.
fn read_operand(alloc: Global, verb: PathVerb, text: &[u8]) -> Result<Option<Path>, NoMemory>
    ensures { IfOk result (λ path. path ≡ (if may_be_root verb then place_of text.now else path_of text.now)) }
{
    if root_too(verb) {
        read_place(alloc, text)
    } else {
        read_path(alloc, text)
    }
}

fn read_one_path(alloc: Global, verb: PathVerb, rest: &[u8]) -> Result<Command, Refusal>
    ensures { GivesCommand result (path_said verb (only (words rest.now))) }
{
    let Some(text) = only_word(rest) else {
        return Err(Refusal::Fault(Fault::BadCommand));
    };
    match read_operand(alloc, verb, text)? {
        Some(path) => Ok(on(verb, path)),
        None => Err(Refusal::Fault(Fault::BadPath)),
    }
}

fn read_truncate(alloc: Global, rest: &[u8]) -> Result<Command, Refusal>
    ensures { GivesCommand result (truncate_said (pair (words rest.now))) }
{
    let Some((path, size)) = two_words(rest) else {
        return Err(Refusal::Fault(Fault::BadCommand));
    };
    let Some(size) = read_size(size) else {
        return Err(Refusal::Fault(Fault::BadNumber));
    };
    match read_path(alloc, path)? {
        Some(path) => Ok(Command::Truncate(path, size)),
        None => Err(Refusal::Fault(Fault::BadPath)),
    }
}

fn read_rename(alloc: Global, rest: &[u8]) -> Result<Command, Refusal>
    ensures { GivesCommand result (rename_said (pair (words rest.now))) }
{
    let Some((path, to)) = two_words(rest) else {
        return Err(Refusal::Fault(Fault::BadCommand));
    };
    let Some(path) = read_path(alloc, path)? else {
        return Err(Refusal::Fault(Fault::BadPath));
    };
    match read_path(alloc, to)? {
        Some(to) => Ok(Command::Rename(path, to)),
        None => Err(Refusal::Fault(Fault::BadPath)),
    }
}

fn read_command(alloc: Global, word: &[u8], rest: &[u8]) -> Result<Command, Refusal>
    ensures { GivesCommand result (command_said (verb_of word.now) (words rest.now)) }
{
    match read_verb(word) {
        Some(Verb::OnPath(verb)) => read_one_path(alloc, verb, rest),
        Some(Verb::Truncate) => read_truncate(alloc, rest),
        Some(Verb::Rename) => read_rename(alloc, rest),
        None => Err(Refusal::Fault(Fault::BadCommand)),
    }
}

// Whether the command has as many words as it takes.
fn has_its_words(word: &[u8], rest: &[u8]) -> bool
    ensures missing { result ≡ false → command_said (verb_of word.now) (words rest.now) ≡ Err BadCommand }
    ensures there { result ≡ true → command_said (verb_of word.now) (words rest.now) ≢ Err BadCommand }
{
    match read_verb(word) {
        Some(Verb::OnPath(_)) => only_word(rest).is_some(),
        Some(Verb::Truncate | Verb::Rename) => two_words(rest).is_some(),
        None => false,
    }
}

// What is wrong where no client has the number.
fn nobodys_fault(word: &[u8], rest: &[u8]) -> Fault
    ensures { ordered None (command_said (verb_of word.now) (words rest.now)) ≡ Err result }
{
    if has_its_words(word, rest) {
        Fault::BadNumber
    } else {
        Fault::BadCommand
    }
}

/// The client and the command of the words behind `client`, or the first of these faults: `BadCommand` where the
/// command or the number of its words is wrong, `BadNumber` where a number is, `BadPath` where a path is. The first two
/// take no memory. The command is in form.
#[tactic(auto, unfolding(crate::specs::Orders::order_said))]
pub fn read_order(alloc: Global, text: &[u8]) -> Result<Order, Refusal>
    ensures said { GivesCommand result (order_said (words text.now)) }
    ensures in_form { IfOk result (λ order. IsTrue (is_in_form order.command)) }
    ensures low { IfOk result (λ order. 0 < order.client.0) }
    ensures high { IfOk result (λ order. order.client.0 ≤ 32) }
{
    let Some((number, rest)) = cut_word(text) else {
        return Err(Refusal::Fault(Fault::BadCommand));
    };
    let Some((word, rest)) = cut_word(rest) else {
        return Err(Refusal::Fault(Fault::BadCommand));
    };
    let Some(client) = read_client(number) else {
        return Err(Refusal::Fault(nobodys_fault(word, rest)));
    };
    let command = read_command(alloc, word, rest)?;
    Ok(Order { client, command })
}
