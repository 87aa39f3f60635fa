//! A job and its old name.
ghost use Rattle.std.specs.Prelude.{◌≡◌, IfOk};
ghost use Rattle.next_steps.specs.Jobs.{heard_source, heard_file, heard_rec, heard_dir};
ghost use Rattle.next_renamer.specs.Stages.{phase_at};

use crate::hold::Held;
use crate::refusal::released;
use crate::stage::Stage;
use next_ids::{At, DirId, Errno, FileId, NoMemory, Node, Stamp};
use next_steps::Answer;

/// The stage after the row at the old name was read.
pub fn heard_source(step: Stamp, answer: &Answer) -> Stage
    ensures { (t : _) → phase_at t result ≡ heard_source t step answer.now }
{
    match answer {
        Answer::Absent => released(Held::Nothing, Errno::Enoent, At::Before(step)),
        Answer::Found(Node::File(file), _) => Stage::SourceSettling { file: *file },
        Answer::Found(Node::Dir(source), _) => Stage::RecLocking { source: *source },
        _ => Stage::SourceReading,
    }
}

/// The stage after the old name of a file was to be locked.
pub fn heard_file(file: FileId, answer: &Answer) -> Stage
    ensures { (t : _) → phase_at t result ≡ heard_file t file answer.now }
{
    match answer {
        Answer::Done(_) => Stage::TargetLocking {
            node: Node::File(file),
        },
        Answer::NoDir | Answer::Leaving(_) | Answer::Changed(_) => Stage::SourceReading,
        _ => Stage::FileLocking { file },
    }
}

/// The stage after the record of a directory was to be locked.
pub fn heard_rec(source: DirId, answer: &Answer) -> Result<Stage, NoMemory>
    ensures { (t : _) → IfOk result (λ stage. phase_at t stage ≡ heard_rec t source answer.now) }
{
    match answer {
        Answer::Done(_) => Ok(Stage::DirLocking { source }),
        Answer::Gone => Ok(Stage::SourceReading),
        Answer::Leaving(note) => Ok(Stage::RecHelping { note: note.copy()? }),
        _ => Ok(Stage::RecLocking { source }),
    }
}

/// The stage after the old name of a directory was to be locked.
pub fn heard_dir(source: DirId, answer: &Answer) -> Stage
    ensures { (t : _) → phase_at t result ≡ heard_dir t source answer.now }
{
    match answer {
        Answer::Done(_) => Stage::TargetLocking {
            node: Node::Dir(source),
        },
        _ => Stage::DirLocking { source },
    }
}
