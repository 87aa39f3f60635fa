//! The Renamer and its jobs.
ghost use Rattle.std.specs.Prelude.{◌≡◌, IfOk, OnOk, OnErr};
ghost use Rattle.next_steps.specs.Asks.{place_of};
ghost use Rattle.next_steps.specs.JobPhases.{Waiting};
ghost use Rattle.next_steps.specs.JobAsks.{ask_job};
ghost use Rattle.next_steps.specs.Jobs.{heard_job};
ghost use Rattle.next_renamer.specs.Renamers.{phase_of};

use crate::job::Job;
use next_ids::{NoMemory, PlaceNo, Stamp, Ts};
use next_steps::{Ask, Entry};

/// The Renamer. It does one job after the other: a rename that no shard makes alone.
#[derive(Drop)]
pub struct RenamerState {
    job: Option<Job>,
}

impl RenamerState {
    /// The Renamer before its first job.
    pub fn new() -> RenamerState
        ensures { phase_of result ≡ Waiting }
    {
        RenamerState { job: None }
    }

    /// The place of the next ask.
    pub fn next_place(&self) -> PlaceNo
        ensures { result ≡ place_of (ask_job (phase_of self.now)) }
    {
        match &self.job {
            Some(job) => job.next_place(),
            None => PlaceNo(128),
        }
    }

    /// The next ask. Its time is that of the job.
    pub fn ask(&self, _last: Ts) -> Result<Ask, NoMemory>
        ensures { IfOk result (λ ask. ask ≡ ask_job (phase_of self.now)) }
    {
        match &self.job {
            Some(job) => job.ask(),
            None => Ok(Ask::TakeJob),
        }
    }

    /// Takes the entry of the step that was asked. On Err the Renamer is as before.
    pub fn hear(&mut self, place: PlaceNo, entry: &Entry) -> Result<(), NoMemory>
        ensures ok { OnOk result (phase_of self.new ≡ heard_job (phase_of self.old) place entry.now) }
        ensures err { OnErr result (self.new ≡ self.old) }
    {
        let step = Stamp {
            number: entry.number,
            place,
        };
        match &mut self.job {
            Some(job) => match job.stage_after(step, &entry.answer)? {
                Some(stage) => job.stage = stage,
                None => self.job = None,
            },
            None => self.job = Job::take(&entry.answer)?,
        }
        Ok(())
    }
}
