//! The queue of the jobs.
ghost use Rattle.std.specs.Prelude.{◌≡◌, ◌≢◌, [], ◌∷◌, ◌+◌, ◌++◌, false, length, slice_get, OnOk, OnErr, Some};
ghost use Rattle.std.specs.Option.{option_copied, option_map};
ghost use Rattle.next_rules.specs.Desks.{job_numbered, waiting_from, with_numbered, job_taken, job_answered};

use next_ids::{At, JobNo, NoMemory, Reply};
use next_steps::Job;
use std::alloc::Global;
use std::marker::Model;

/// The jobs in the order in which they were handed in, the first with the number 1. The Renamer takes them in this order.
#[derive(Drop)]
pub struct JobQueue {
    jobs: Vec<Job>,
    taken: usize,
}

impl Model for JobQueue {
    ghost use Rattle.std.specs.Prelude.{List};
    ghost use Rattle.next_steps.specs.declared.contents.Job.{Job};
    ghost use Rattle.next_desk.specs.Queues.{AreTaken};

    ghost Value = { List Job };

    ghost view = { λ queue. queue.jobs.items };

    ghost invariant = { λ queue. AreTaken queue.taken queue.jobs.items };
}

// The job at the place, from 0.
fn job_at(jobs: &Vec<Job>, i: usize) -> Option<&Job>
    ensures { option_copied result ≡ slice_get jobs.now.items i }
{
    jobs.get(i)
}

// The job is taken.
fn mark_taken(job: &mut Job)
    ensures { job.new ≡ job_taken job.old }
{
    job.taken = true;
}

// The job has this answer.
fn set_answer(job: &mut Job, reply: Reply, at: At)
    ensures { job.new ≡ job_answered reply at job.old }
{
    job.answer = Some((reply, at));
}

impl JobQueue {
    /// No jobs.
    pub fn new(alloc: Global) -> JobQueue
        ensures { result ≡ [] }
    {
        JobQueue {
            jobs: Vec::new(alloc),
            taken: 0,
        }
    }

    /// How many jobs there are.
    pub fn len(&self) -> usize
        ensures { result ≡ length self.now }
    {
        self.jobs.len()
    }

    /// The number of the next job that is handed in.
    pub fn next_number(&self) -> JobNo
        ensures { result.0 ≡ length self.now + 1 }
    {
        JobNo(self.jobs.len() as u64 + 1)
    }

    /// The job with the number. None comes exactly where there is none.
    pub fn numbered(&self, job: JobNo) -> Option<&Job>
        ensures { option_copied result ≡ job_numbered job.0 self.now }
    {
        if job.0 == 0 {
            return None;
        }
        job_at(&self.jobs, job.0 as usize - 1)
    }

    /// The least job that was not taken. None comes exactly where each was taken.
    pub fn waiting(&self) -> Option<(JobNo, &Job)>
        ensures { option_map (λ found. (found.0.0, found.1.now)) result ≡ waiting_from 1 self.now }
    {
        match job_at(&self.jobs, self.taken) {
            Some(job) => Some((JobNo(self.taken as u64 + 1), job)),
            None => None,
        }
    }

    /// Adds a job that was not taken.
    pub fn push(&mut self, job: Job) -> Result<(), NoMemory>
        requires { job.taken ≡ false }
        ensures ok { OnOk result (self.new ≡ self.old ++ job ∷ []) }
        ensures err { OnErr result (self.new ≡ self.old) }
    {
        self.jobs.push(job)?;
        Ok(())
    }

    /// Takes the job that waits, if there is one.
    pub fn take(&mut self)
        ensures { (number : _) → (job : _) → waiting_from 1 self.old ≡ Some (number, job) → self.new ≡ with_numbered job_taken number self.old }
    {
        if let Some(job) = self.jobs.get_mut(self.taken) {
            mark_taken(job);
            self.taken += 1;
        }
    }

    /// Sets the answer of the job with the number, if there is one.
    pub fn answer(&mut self, job: JobNo, reply: Reply, at: At)
        ensures { self.new ≡ with_numbered (job_answered reply at) job.0 self.old }
    {
        if job.0 == 0 {
            return;
        }
        let Some(job) = self.jobs.get_mut(job.0 as usize - 1) else {
            return;
        };
        set_answer(job, reply, at);
    }
}
