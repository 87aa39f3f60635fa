//! The first word of a line, and the words behind `places` and `stop`.
ghost use Rattle.std.specs.Prelude.{◌≡◌};
ghost use Rattle.next_grammar.specs.Words.{words};
ghost use Rattle.next_grammar.specs.Lines.{kind_of, places_said, stop_said};

use crate::fault::Fault;
use crate::numbers::{read_client, read_count, read_steps};
use crate::words::two_words;
use next_ids::Client;

/// What a line is, by its first word.
#[derive(Clone, Copy, Debug, PartialEq, Eq)]
pub enum LineKind {
    Places,
    Client,
    Stop,
    Turns,
}

/// How many shards and how many stores there are, 1 to 64 each.
#[derive(Clone, Copy, Debug, PartialEq, Eq)]
pub struct Counts {
    pub shards: u32,
    pub stores: u32,
}

/// A client, and after how many steps of its own it stops, 0 to 1,000,000.
#[derive(Clone, Copy, Debug, PartialEq, Eq)]
pub struct Stop {
    pub client: Client,
    pub steps: u64,
}

/// What a line with this first word is. None comes exactly where the word is not known.
#[tactic(auto, unfolding(crate::specs::Lines::kind_of))]
pub fn read_kind(word: &[u8]) -> Option<LineKind>
    ensures { result ≡ kind_of word.now }
{
    if word == b"places".as_slice() {
        Some(LineKind::Places)
    } else if word == b"client".as_slice() {
        Some(LineKind::Client)
    } else if word == b"stop".as_slice() {
        Some(LineKind::Stop)
    } else if word == b"turns".as_slice() {
        Some(LineKind::Turns)
    } else {
        None
    }
}

/// The counts that the words behind `places` say: `BadCommand` where they aren't two, `BadNumber` where one is no such
/// count.
#[tactic(auto, unfolding(crate::specs::Lines::places_said))]
pub fn read_places(text: &[u8]) -> Result<Counts, Fault>
    ensures { result ≡ places_said (words text.now) }
{
    let Some((shards, stores)) = two_words(text) else {
        return Err(Fault::BadCommand);
    };
    match (read_count(shards), read_count(stores)) {
        (Some(shards), Some(stores)) => Ok(Counts { shards, stores }),
        _ => Err(Fault::BadNumber),
    }
}

/// The stop that the words behind `stop` say: `BadCommand` where they aren't two, `BadNumber` where one is no client's
/// number or no number of steps.
#[tactic(auto, unfolding(crate::specs::Lines::stop_said))]
pub fn read_stop(text: &[u8]) -> Result<Stop, Fault>
    ensures { result ≡ stop_said (words text.now) }
{
    let Some((client, steps)) = two_words(text) else {
        return Err(Fault::BadCommand);
    };
    match (read_client(client), read_steps(steps)) {
        (Some(client), Some(steps)) => Ok(Stop { client, steps }),
        _ => Err(Fault::BadNumber),
    }
}
