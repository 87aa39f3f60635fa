//! The words behind `turns`.
ghost use Rattle.std.specs.Prelude.{◌≡◌};
ghost use Rattle.next_grammar.specs.Turns.{listed_of, turns_said};

use crate::numbers::{read_client, read_times};
use crate::words::cut_at;
use next_ids::Client;

/// Whose turns a word lists.
#[derive(Clone, Copy, Debug, PartialEq, Eq)]
pub enum ListedActor {
    Client(Client),
    Renamer,
    Collector,
}

/// Whose turns a word lists, and how many: 1 to 1,000,000.
#[derive(Clone, Copy, Debug, PartialEq, Eq)]
pub struct ListedTurns {
    pub actor: ListedActor,
    pub count: u32,
}

#[tactic(auto, unfolding(crate::specs::Turns::listed_of))]
fn read_actor(word: &[u8]) -> Option<ListedActor>
    ensures { result ≡ listed_of word.now }
{
    if word == b"r".as_slice() {
        return Some(ListedActor::Renamer);
    }
    if word == b"g".as_slice() {
        return Some(ListedActor::Collector);
    }
    let client = read_client(word)?;
    Some(ListedActor::Client(client))
}

/// The turns that a word lists. None comes exactly where it isn't a client's number, `r` or `g`, with or without a star
/// and a number of turns behind it.
#[tactic(auto, unfolding(crate::specs::Turns::turns_said))]
pub fn read_turns(word: &[u8]) -> Option<ListedTurns>
    ensures { result ≡ turns_said word.now }
{
    let Some((actor, times)) = cut_at(word, b'*') else {
        let actor = read_actor(word)?;
        return Some(ListedTurns { actor, count: 1 });
    };
    if cut_at(times, b'*').is_some() {
        return None;
    }
    let actor = read_actor(actor)?;
    let count = read_times(times)?;
    Some(ListedTurns { actor, count })
}
