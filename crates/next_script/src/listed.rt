//! The words of a `turns` line.
ghost use Rattle.std.specs.Prelude.{◌≡◌, ◌++◌, ◌+◌, nat_lt, if◌then◌else◌, Some, None, IfOk, IfSome, IfNone};
ghost use Rattle.std.specs.List.{list_all};
ghost use Rattle.next_grammar.specs.Outcomes.{Gives};
ghost use Rattle.next_grammar.specs.Turns.{turns_said};
ghost use Rattle.next_grammar.specs.Words.{words};
ghost use Rattle.next_script.specs.Scripts.{known, all_listed, turn_count, is_client, client_turns, with_turns, turns_line};

use crate::reading::Reading;
use next_grammar::{Fault, ListedActor, ListedTurns, Refusal, cut_word, read_turns};
use next_ids::{Actor, NoMemory};
use next_setup::TurnList;
use std::alloc::Global;

const MOST_TURNS: u64 = 1_000_000;

// The turns that a word lists, where it is good.
fn known_turns(reading: &Reading, word: &[u8]) -> Option<ListedTurns>
    ensures { result ≡ known reading.now (turns_said word.now) }
{
    let turns = read_turns(word)?;
    let known = match turns.actor {
        ListedActor::Client(client) => reading.script.commands.has(client),
        ListedActor::Renamer | ListedActor::Collector => true,
    };
    if known { Some(turns) } else { None }
}

// What the words list, where each of them is good.
fn listed_in(
    alloc: Global,
    reading: &Reading,
    text: &[u8],
) -> Result<Option<Vec<ListedTurns>>, NoMemory>
    ensures some { IfOk result (λ listed. IfSome listed (λ turns. all_listed reading.now (words text.now) ≡ Some turns.items)) }
    ensures none { IfOk result (λ listed. IfNone listed (all_listed reading.now (words text.now) ≡ None)) }
{
    let mut listed = Vec::new(alloc);
    let mut rest = text;
    while let Some((word, more)) = cut_word(rest) {
        let Some(turns) = known_turns(reading, word) else {
            return Ok(None);
        };
        listed.push(turns)?;
        rest = more;
    }
    Ok(Some(listed))
}

// How many turns there are with these, where that is no more than the limit.
#[tactic(auto, using(crate::proofs::TurnCounts::turn_counts))]
fn count_with(before: u64, listed: &[ListedTurns]) -> Option<u64>
    ensures { result ≡ (if nat_lt 1000000 (before + turn_count listed.now) then None else Some (before + turn_count listed.now)) }
{
    let mut room = MOST_TURNS.checked_sub(before)?;
    for turns in listed {
        room = room.checked_sub(u64::from(turns.count))?;
    }
    Some(MOST_TURNS - room)
}

fn all_clients(listed: &[ListedTurns]) -> bool
    ensures { result ≡ list_all (λ turns. is_client turns.actor) listed.now }
{
    listed
        .iter()
        .all(|turns| matches!(turns.actor, ListedActor::Client(_)))
}

// Adds the turns of the clients among these.
fn add_turns(list: &mut TurnList, listed: &[ListedTurns]) -> Result<(), NoMemory>
    ensures { IfOk result (λ _. list.new ≡ list.old ++ client_turns listed.now) }
{
    for turns in listed {
        if let ListedActor::Client(client) = turns.actor {
            let Ok(()) = list.push((Actor::Client(client), turns.count)) else {
                return Err(NoMemory);
            };
        }
    }
    Ok(())
}

fn with_listed(mut reading: Reading, listed: &[ListedTurns]) -> Result<Reading, Refusal>
    ensures { Gives result (with_turns reading (Some listed.now)) }
{
    let Some(count) = count_with(reading.turns, listed) else {
        return Err(Refusal::Fault(Fault::TooMany));
    };
    if !all_clients(listed) {
        return Err(Refusal::Fault(Fault::NotBuilt));
    }
    add_turns(&mut reading.script.turns, listed)?;
    reading.turns = count;
    Ok(reading)
}

// The reading with the turns of a line, whose words behind `turns` these are.
#[tactic(auto, unfolding(crate::specs::Scripts::turns_line))]
pub fn with_turns_line(alloc: Global, reading: Reading, text: &[u8]) -> Result<Reading, Refusal>
    ensures { Gives result (turns_line reading (words text.now)) }
{
    if cut_word(text).is_none() {
        return Err(Refusal::Fault(Fault::BadCommand));
    }
    match listed_in(alloc, &reading, text)? {
        Some(listed) => with_listed(reading, listed.as_slice()),
        None => Err(Refusal::Fault(Fault::BadNumber)),
    }
}
