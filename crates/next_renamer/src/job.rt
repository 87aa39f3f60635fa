//! A job on its way.
ghost use Rattle.std.specs.Prelude.{◌≡◌, IfOk};
ghost use Rattle.next_steps.specs.Asks.{place_of};
ghost use Rattle.next_steps.specs.JobAsks.{ask_job};
ghost use Rattle.next_steps.specs.Jobs.{heard_waiting, heard_job_as};
ghost use Rattle.next_renamer.specs.Stages.{phase_at, phase_after};
ghost use Rattle.next_renamer.specs.Tasks.{task_of};
ghost use Rattle.next_renamer.specs.Jobs.{job_phase, phase_in};

use crate::asks::{ask_at, place_at};
use crate::commit::{heard_commit, moved, rebased, source_cut, target_unlocked};
use crate::refusal::released;
use crate::source::{heard_dir, heard_file, heard_rec, heard_source};
use crate::stage::Stage;
use crate::target::{heard_old, heard_old_row, heard_target, heard_up, old_gone, target_gone};
use crate::task::Task;
use next_ids::{NoMemory, PlaceNo, Stamp};
use next_steps::{Answer, Ask};

/// A job that was taken, and where it is.
#[derive(Drop)]
pub struct Job {
    task: Task,
    pub stage: Stage,
}

// The stage after the answer of a step. None comes exactly where the job is over.
fn stage_after(
    task: &Task,
    stage: &Stage,
    step: Stamp,
    answer: &Answer,
) -> Result<Option<Stage>, NoMemory>
    ensures { IfOk result (λ after. phase_after (task_of task.now) after ≡ heard_job_as (phase_at (task_of task.now) stage.now) step answer.now) }
{
    match stage {
        Stage::SourceReading => Ok(Some(heard_source(step, answer))),
        Stage::SourceSettling { file } => Ok(Some(Stage::FileLocking { file: *file })),
        Stage::FileLocking { file } => Ok(Some(heard_file(*file, answer))),
        Stage::RecLocking { source } => Ok(Some(heard_rec(*source, answer)?)),
        Stage::RecHelping { .. } => Ok(Some(Stage::SourceReading)),
        Stage::DirLocking { source } => Ok(Some(heard_dir(*source, answer))),
        Stage::TargetLocking { node } => Ok(Some(heard_target(task, *node, step, answer)?)),
        Stage::TargetHelping { node, .. } => Ok(Some(target_gone(*node, step))),
        Stage::OldLocking { source, old } => Ok(Some(heard_old(*source, *old, step, answer)?)),
        Stage::OldHelping { source, .. } => Ok(Some(old_gone(*source))),
        Stage::OldRowLocking { source, old } => {
            Ok(Some(heard_old_row(task, *source, *old, step, answer)))
        }
        Stage::Climbing { source, old, chain } => {
            Ok(Some(heard_up(*source, *old, *chain, step, answer)))
        }
        Stage::Committing { node } => Ok(Some(heard_commit(task, *node, step, answer))),
        Stage::SourceCutting { node, replaced, at } => {
            Ok(Some(source_cut(*node, *replaced, *at)))
        }
        Stage::Rebasing { replaced, at, .. } => Ok(Some(rebased(*replaced, *at))),
        Stage::TargetUnlocking { replaced, at } => Ok(Some(target_unlocked(*replaced, *at))),
        Stage::OldDropping { old, at } => Ok(Some(Stage::OldClearing { old: *old, at: *at })),
        Stage::OldClearing { at, .. } => Ok(Some(moved(*at))),
        Stage::Releasing {
            rest,
            errno,
            at,
            ..
        } => Ok(Some(released(*rest, *errno, *at))),
        Stage::Replying { .. } => Ok(None),
    }
}

impl Job {
    /// The job of the answer. None comes exactly where it has none.
    pub fn take(answer: &Answer) -> Result<Option<Job>, NoMemory>
        ensures { IfOk result (λ job. job_phase job ≡ heard_waiting answer.now) }
    {
        match answer {
            Answer::Job {
                job,
                client,
                dir,
                name,
                to_dir,
                to_name,
                ts,
            } => {
                let name = name.copy()?;
                let to_name = to_name.copy()?;
                let task = Task {
                    job: *job,
                    client: *client,
                    dir: *dir,
                    name,
                    to_dir: *to_dir,
                    to_name,
                    ts: *ts,
                };
                Ok(Some(Job {
                    task,
                    stage: Stage::SourceReading,
                }))
            }
            _ => Ok(None),
        }
    }

    /// The stage after the answer of the job's step. None comes exactly where the job is over.
    pub fn stage_after(&self, step: Stamp, answer: &Answer) -> Result<Option<Stage>, NoMemory>
        ensures { IfOk result (λ after. phase_after (task_of self.now.task) after ≡ heard_job_as (phase_in self.now) step answer.now) }
    {
        stage_after(&self.task, &self.stage, step, answer)
    }

    /// What is asked next.
    pub fn ask(&self) -> Result<Ask, NoMemory>
        ensures { IfOk result (λ ask. ask ≡ ask_job (phase_in self.now)) }
    {
        ask_at(&self.task, &self.stage)
    }

    /// The place that is asked next.
    pub fn next_place(&self) -> PlaceNo
        ensures { result ≡ place_of (ask_job (phase_in self.now)) }
    {
        place_at(&self.task, &self.stage)
    }
}
