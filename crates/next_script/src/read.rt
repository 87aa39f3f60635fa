//! Reading a script from a source.
ghost use Rattle.std.specs.Prelude.{◌≡◌, ◌≢◌, ◌≤◌, ◌+◌, ℕ, List, Some, Ok, Err, IfOk, IfErr};
ghost use Rattle.next_io.specs.Causes.{Rose};
ghost use Rattle.next_setup.specs.declared.script.Script.{Script};
ghost use Rattle.next_script.specs.Forms.{IsScript};
ghost use Rattle.next_script.specs.Scripts.{script_of};
ghost use Rattle.next_script.specs.Outcomes.{Gives, Answers, Reads, IsInForm};

use crate::lines::read_text;
use crate::refusal::ScriptRefusal;
use next_io::{ReadError, Source, read_within};
use next_setup::Script;
use std::alloc::Global;

const MOST_BYTES: usize = 4_194_304;

// The script of bytes that were read to their end, or past the limit.
fn script_in(alloc: Global, bytes: &[u8]) -> Result<Script, ScriptRefusal>
    ensures { Gives result (script_of bytes.now) }
{
    let within = bytes.len() <= MOST_BYTES;
    let text = &bytes[..bytes.len().min(MOST_BYTES)];
    read_text(alloc, text, within)
}

/// The script that a source holds. The end of input is told once at most, so that nothing is read behind it. `ReadFault`
/// comes exactly where the source failed; `Bad` has the first line that breaks the form, with the first of its faults;
/// `NoMemory` is want of memory.
#[tactic(auto, using(crate::proofs::Told::telling), unfolding(crate::specs::Scripts::most_bytes))]
pub fn read_script<S: Source>(alloc: Global, source: &mut S) -> Result<Script, ScriptRefusal>
    ensures read { Reads (S.left source.old) (S.left source.new) result }
    ensures in_form { IfOk result IsInForm }
    ensures told { (left : List ℕ) → S.left source.old ≡ Some left → Answers result (script_of left) }
    ensures form { (left : List ℕ) (script : Script) → S.left source.old ≡ Some left → IsScript left script → Answers result (Ok script) }
    ensures read_fault { IfErr result (λ refusal. refusal ≡ ScriptRefusal.ReadFault → Rose (S.faults source.old) (S.faults source.new)) }
    ensures no_read_fault { result ≢ Err ScriptRefusal.ReadFault → S.faults source.new ≡ S.faults source.old }
    ensures later { S.faults source.old ≤ S.faults source.new }
    ensures ends { S.ends source.new ≤ S.ends source.old + 1 }
{
    match read_within(alloc, source, MOST_BYTES) {
        Ok(bytes) => script_in(alloc, bytes.as_slice()),
        Err(ReadError::Failed) => Err(ScriptRefusal::ReadFault),
        Err(ReadError::NoMemory) => Err(ScriptRefusal::NoMemory),
    }
}
