//! The top calls.
ghost use Rattle.std.specs.Prelude.{◌≡◌, ◌≢◌, ◌≤◌, ◌+◌, ◌↔◌, ℕ, List, map, string_bytes, Ok, Some, None, IsSome};
ghost use Rattle.cfs_ids.specs.declared.ids.PlaceNo.{PlaceNo};
ghost use Rattle.cfs_io.specs.Causes.{Rose};
ghost use Rattle.cfs_grammar.specs.declared.fault.Fault.{Fault};
ghost use Rattle.cfs_setup.specs.declared.script.Script.{Script};
ghost use Rattle.cfs_script.specs.Forms.{IsScript};
ghost use Rattle.cfs_script.specs.Outcomes.{HasRefused};
ghost use Rattle.cfs_script.specs.Scripts.{script_of};
ghost use Rattle.cfs_run.specs.Outcomes.{Replayed, CutOff, ComesBeforeWriting, Answers, usage_of};

use crate::gate::Gate;
use crate::print::{PrintFault, print};
use crate::status::Status;
use cfs_io::{Sink, Source};
use cfs_script::{ScriptRefusal, read_script};
use std::alloc::Global;
use std::sync::Wait;
use std::thread::Threads;

/// Reads a script, makes its turns, and writes what came of them. The status is Done where all was read and written;
/// Script with the first line that has a fault, and the first of its faults; ReadFault and WriteFault exactly where the
/// device failed, while its count of faults is below the greatest u64; and NoMemory where no memory was left, which
/// comes only before the first byte is written. No other status comes.
pub fn replay<S: Source, K: Sink>(alloc: Global, source: &mut S, sink: &mut K) -> Status
    // What was read is a script, and what was taken is the text of its run.
    ensures done { result ≡ Status.Done → Replayed (S.left source.old) (S.left source.new) (K.taken sink.old) (K.taken sink.new) }

    // The first line that has a fault, with the first of its faults.
    ensures script { (line : ℕ) (fault : Fault) → result ≡ Status.Script line fault → HasRefused (S.left source.old) (S.left source.new) line fault }

    // A fault comes exactly where the device failed, and what was taken is a front of the text.
    ensures read_fault { result ≡ Status.ReadFault → Rose (S.faults source.old) (S.faults source.new) }
    ensures write_fault { result ≡ Status.WriteFault → Rose (K.faults sink.old) (K.faults sink.new) }
    ensures no_read_fault { result ≢ Status.ReadFault → S.faults source.new ≡ S.faults source.old }
    ensures no_write_fault { result ≢ Status.WriteFault → K.faults sink.new ≡ K.faults sink.old }
    ensures cut_off { result ≡ Status.WriteFault → CutOff (S.left source.old) (S.left source.new) (K.taken sink.old) (K.taken sink.new) }
    ensures untouched { ComesBeforeWriting result → sink.new ≡ sink.old }

    // The end of input is told once at most, so that nothing is read behind it.
    ensures ends { S.ends source.new ≤ S.ends source.old + 1 }

    // A log has more room than a script has turns.
    ensures not_full { (place : PlaceNo) → result ≢ Status.LogFull place }

    // Where the source tells what it has left, no other status comes but for faults and want of memory.
    ensures told { (left : List ℕ) → S.left source.old ≡ Some left → Answers result (script_of left) }
    ensures form { (left : List ℕ) (script : Script) → S.left source.old ≡ Some left → IsScript left script → Answers result (Ok script) }
    ensures no_usage { (word : ℕ) → result ≢ Status.Usage word }
    ensures no_verdict { (line : ℕ) → result ≢ Status.No line }
{
    let script = match read_script(alloc, source) {
        Ok(script) => script,
        Err(ScriptRefusal::ReadFault) => return Status::ReadFault,
        Err(ScriptRefusal::Bad { line, fault }) => return Status::Script { line, fault },
        Err(ScriptRefusal::NoMemory) => return Status::NoMemory,
    };
    match print(alloc, &script, sink) {
        Ok(()) => Status::Done,
        Err(PrintFault::LogFull(place)) => Status::LogFull { place },
        Err(PrintFault::NoMemory) => Status::NoMemory,
        Err(PrintFault::Write) => Status::WriteFault,
    }
}

#[tactic(auto, unfolding(crate::specs::Outcomes::usage_of))]
fn usage(words: &[String]) -> Option<usize>
    ensures { result ≡ usage_of (map string_bytes words.now) }
{
    match words {
        [] => Some(0),
        [word] => {
            if word.as_str() == "replay" {
                None
            } else {
                Some(0)
            }
        }
        [word, ..] => {
            if word.as_str() == "replay" {
                Some(1)
            } else {
                Some(0)
            }
        }
    }
}

/// All that the program does with the words behind its name. Usage has the index of the first word that isn't expected;
/// the other statuses are those of `replay`. The runtime and the gate are for commands that run on threads; `replay` uses
/// neither.
pub fn cfs_words<R: Threads + Wait + Sync, S: Source, K: Sink, G: Gate + Sync>(
    _rt: &R,
    alloc: Global,
    words: &[String],
    source: &mut S,
    sink: &mut K,
    _gate: &G,
) -> Status
    // The index of the first word that isn't expected. Then nothing is read or written.
    ensures usage { (word : ℕ) → (result ≡ Status.Usage word) ↔ (usage_of (map string_bytes words.now) ≡ Some word) }
    ensures not_read { IsSome (usage_of (map string_bytes words.now)) → source.new ≡ source.old }

    // What was read is a script, and what was taken is the text of its run.
    ensures done { result ≡ Status.Done → Replayed (S.left source.old) (S.left source.new) (K.taken sink.old) (K.taken sink.new) }

    // The first line that has a fault, with the first of its faults.
    ensures script { (line : ℕ) (fault : Fault) → result ≡ Status.Script line fault → HasRefused (S.left source.old) (S.left source.new) line fault }

    // A fault comes exactly where the device failed, and what was taken is a front of the text.
    ensures read_fault { result ≡ Status.ReadFault → Rose (S.faults source.old) (S.faults source.new) }
    ensures write_fault { result ≡ Status.WriteFault → Rose (K.faults sink.old) (K.faults sink.new) }
    ensures no_read_fault { result ≢ Status.ReadFault → S.faults source.new ≡ S.faults source.old }
    ensures no_write_fault { result ≢ Status.WriteFault → K.faults sink.new ≡ K.faults sink.old }
    ensures cut_off { result ≡ Status.WriteFault → CutOff (S.left source.old) (S.left source.new) (K.taken sink.old) (K.taken sink.new) }
    ensures untouched { ComesBeforeWriting result → sink.new ≡ sink.old }

    // The end of input is told once at most, so that nothing is read behind it.
    ensures ends { S.ends source.new ≤ S.ends source.old + 1 }

    // A log has more room than a script has turns.
    ensures not_full { (place : PlaceNo) → result ≢ Status.LogFull place }

    // Where the source tells what it has left, no other status comes but for faults and want of memory.
    ensures told { (left : List ℕ) → S.left source.old ≡ Some left → usage_of (map string_bytes words.now) ≡ None → Answers result (script_of left) }
    ensures no_verdict { (line : ℕ) → result ≢ Status.No line }
{
    match usage(words) {
        Some(word) => Status::Usage { word },
        None => replay(alloc, source, sink),
    }
}
