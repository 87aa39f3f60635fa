//! The lines of a script.
ghost use Rattle.std.specs.Prelude.{◌≡◌, ◌≤◌, ◌<◌, ◌^◌, None};
ghost use Rattle.next_grammar.specs.Outcomes.{Gives as GivesLine};
ghost use Rattle.next_grammar.specs.Words.{words};
ghost use Rattle.next_script.specs.Pieces.{lines, rest_of_lines, without_return};
ghost use Rattle.next_script.specs.Scripts.{is_list, start, with_order, client_line, stop_line, by_kind, with_text, with_line, ended, last_line, after_lines};
ghost use Rattle.next_script.specs.Outcomes.{Gives, refusal_of};

use crate::cut::{cut_line, text_of};
use crate::listed::with_turns_line;
use crate::reading::Reading;
use crate::refusal::ScriptRefusal;
use next_grammar::{
    Counts, Fault, LineKind, Order, Refusal, cut_word, is_comment, read_kind, read_order,
    read_places, read_stop,
};
use next_setup::{CommandLists, Script, StopList, TurnList, built};
use next_walk::Command;
use std::alloc::Global;

const MOST_LINE_BYTES: usize = 4096;

const MOST_COMMANDS: usize = 65_536;

const MOST_LISTS: usize = 128;

// Each of these takes the reading so far, which is given up at a fault.

fn lists(command: &Command) -> bool
    ensures { result ≡ is_list command.now }
{
    matches!(command, Command::List(_))
}

#[tactic(auto, unfolding(crate::specs::Scripts::with_order))]
fn with_one_order(alloc: Global, mut reading: Reading, order: Order) -> Result<Reading, Refusal>
    requires low { 0 < order.client.0 }
    requires high { order.client.0 ≤ 32 }
    ensures { GivesLine result (with_order reading order) }
{
    let lists = lists(&order.command);
    if reading.commands >= MOST_COMMANDS || (lists && reading.lists >= MOST_LISTS) {
        return Err(Refusal::Fault(Fault::TooMany));
    }
    if !built(&order.command) {
        return Err(Refusal::Fault(Fault::NotBuilt));
    }
    if lists {
        reading.lists += 1;
    }
    reading.commands += 1;
    reading
        .script
        .commands
        .add(alloc, order.client, order.command)?;
    Ok(reading)
}

#[tactic(auto, unfolding(crate::specs::Scripts::client_line))]
fn with_client_line(alloc: Global, reading: Reading, text: &[u8]) -> Result<Reading, Refusal>
    ensures { GivesLine result (client_line reading (words text.now)) }
{
    let order = read_order(alloc, text)?;
    with_one_order(alloc, reading, order)
}

#[tactic(auto, unfolding(crate::specs::Scripts::stop_line))]
fn with_stop_line(reading: Reading, text: &[u8]) -> Result<Reading, Refusal>
    ensures { GivesLine result (stop_line reading (words text.now)) }
{
    match read_stop(text) {
        Ok(stop) => {
            if reading.script.commands.has(stop.client) {
                Err(Refusal::Fault(Fault::NotBuilt))
            } else {
                Err(Refusal::Fault(Fault::BadNumber))
            }
        }
        Err(fault) => Err(Refusal::Fault(fault)),
    }
}

fn opening(alloc: Global, counts: Counts) -> Reading
    ensures { result ≡ start counts }
{
    Reading {
        script: Script {
            shards: counts.shards,
            stores: counts.stores,
            commands: CommandLists::new(alloc),
            stops: StopList::new(alloc),
            turns: TurnList::new(alloc),
        },
        commands: 0,
        lists: 0,
        turns: 0,
    }
}

// The reading with a line of this kind, whose words behind the first these are.
fn with_kind(
    alloc: Global,
    state: Option<Reading>,
    kind: LineKind,
    text: &[u8],
) -> Result<Reading, Refusal>
    ensures { GivesLine result (by_kind state kind (words text.now)) }
{
    let Some(reading) = state else {
        if kind != LineKind::Places {
            return Err(Refusal::Fault(Fault::NoPlaces));
        }
        return match read_places(text) {
            Ok(counts) => Ok(opening(alloc, counts)),
            Err(fault) => Err(Refusal::Fault(fault)),
        };
    };
    let late = reading.script.turns.len() > 0;
    match kind {
        LineKind::Turns => with_turns_line(alloc, reading, text),
        LineKind::Client if !late => with_client_line(alloc, reading, text),
        LineKind::Stop if !late => with_stop_line(reading, text),
        _ => Err(Refusal::Fault(Fault::LateLine)),
    }
}

// The reading with a line of this text.
#[tactic(auto, unfolding(crate::specs::Scripts::with_text))]
fn with_one_text(
    alloc: Global,
    state: Option<Reading>,
    text: &[u8],
) -> Result<Option<Reading>, Refusal>
    ensures { GivesLine result (with_text state text.now) }
{
    if is_comment(text) {
        return Ok(state);
    }
    let Some((first, rest)) = cut_word(text) else {
        return Ok(state);
    };
    let Some(kind) = read_kind(first) else {
        return Err(Refusal::Fault(Fault::BadCommand));
    };
    Ok(Some(with_kind(alloc, state, kind, rest)?))
}

// The reading with this line, which has this text.
#[tactic(auto, unfolding(crate::specs::Scripts::with_line))]
fn with_one_line(
    alloc: Global,
    state: Option<Reading>,
    line: &[u8],
    text: &[u8],
) -> Result<Option<Reading>, Refusal>
    ensures { GivesLine result (with_line state line.now text.now) }
{
    if line.len() > MOST_LINE_BYTES {
        return Err(Refusal::Fault(Fault::LineTooLong));
    }
    with_one_text(alloc, state, text)
}

// The refusal of this line.
fn refused(line: u64, refusal: Refusal) -> ScriptRefusal
    ensures { result ≡ refusal_of line refusal }
{
    match refusal {
        Refusal::Fault(fault) => ScriptRefusal::Bad { line, fault },
        Refusal::NoMemory => ScriptRefusal::NoMemory,
    }
}

fn finished(number: u64, state: Option<Reading>) -> Result<Script, ScriptRefusal>
    ensures { Gives result (ended number state) }
{
    match state {
        Some(reading) => Ok(reading.script),
        None => Err(ScriptRefusal::Bad {
            line: number,
            fault: Fault::NoPlaces,
        }),
    }
}

// What stands behind the last LF.
fn with_last_line(
    alloc: Global,
    number: u64,
    state: Option<Reading>,
    rest: &[u8],
) -> Result<Script, ScriptRefusal>
    requires { number ≤ 2 ^ 63 }
    ensures { Gives result (last_line number state rest.now) }
{
    if rest.is_empty() {
        return finished(number, state);
    }
    match with_one_line(alloc, state, rest, rest) {
        Ok(next) => finished(number + 1, next),
        Err(refusal) => Err(refused(number, refusal)),
    }
}

// The script of the lines of a text. The text is all of the input where it is `within` the limit.
#[tactic(auto, unfolding(crate::specs::Scripts::after_lines))]
pub fn read_text(alloc: Global, text: &[u8], within: bool) -> Result<Script, ScriptRefusal>
    ensures { Gives result (after_lines 1 None (lines text.now) (rest_of_lines text.now) within) }
{
    let mut state = None;
    let mut number = 1;
    let mut rest = text;
    while let Some((line, more)) = cut_line(rest) {
        state = match with_one_line(alloc, state, line, text_of(line)) {
            Ok(next) => next,
            Err(refusal) => return Err(refused(number, refusal)),
        };
        rest = more;
        number += 1;
    }
    if !within {
        return Err(ScriptRefusal::Bad {
            line: number,
            fault: Fault::TooMany,
        });
    }
    with_last_line(alloc, number, state, rest)
}
