//! The table of the desk: what an ask is answered, and what it changes.
ghost use Rattle.std.specs.Prelude.{◌≡◌, ◌≢◌, ◌↔◌, IfOk, OnOk, OnErr, IsSome, IsOk, Err, Some, None, false};
ghost use Rattle.next_rules.specs.Desks.{serve_desk, submitted, told_job, waiting_from, took, collected, answer_in, job_numbered};
ghost use Rattle.next_desk.specs.Jobs.{served_by, after, IsReady};

use crate::queue::JobQueue;
use next_ids::{At, Client, DirId, JobNo, Name, NoMemory, Reply, Ts};
use next_steps::{Answer, Ask, Job, ServeFault};

/// What a line of the table does to the jobs.
#[derive(Drop)]
pub enum Change {
    Keep,
    /// The job is handed in.
    Submit(Job),
    /// The job, which waits, is taken.
    Take(JobNo),
    /// The job's answer is set.
    Answer(JobNo, Reply, At),
}

/// The line of the table that an ask has met.
#[derive(Drop)]
pub struct Line {
    pub answer: Answer,
    pub change: Change,
}

// Submit: a job that was not taken, with the next number.
fn submit(
    jobs: &JobQueue,
    client: Client,
    dir: DirId,
    name: &Name,
    to_dir: DirId,
    to_name: &Name,
    ts: Ts,
) -> Result<Line, NoMemory>
    ensures line { IfOk result (λ line. served_by jobs.now line ≡ submitted jobs.now client dir name.now to_dir to_name.now ts) }
    ensures ready { IfOk result (λ line. IsReady jobs.now line.change) }
{
    let name = name.copy()?;
    let to_name = to_name.copy()?;
    let job = Job {
        client,
        dir,
        name,
        to_dir,
        to_name,
        ts,
        taken: false,
        answer: None,
    };
    Ok(Line {
        answer: Answer::Submitted(jobs.next_number()),
        change: Change::Submit(job),
    })
}

// What is told of a job.
fn told(number: JobNo, job: &Job) -> Result<Answer, NoMemory>
    ensures { IfOk result (λ answer. answer ≡ told_job number.0 job.now) }
{
    let name = job.name.copy()?;
    let to_name = job.to_name.copy()?;
    Ok(Answer::Job {
        job: number,
        client: job.client,
        dir: job.dir,
        name,
        to_dir: job.to_dir,
        to_name,
        ts: job.ts,
    })
}

// TakeJob: the least job that was not taken.
fn take(jobs: &JobQueue) -> Result<Line, ServeFault>
    ensures line { IfOk result (λ line. Some (served_by jobs.now line) ≡ took jobs.now (waiting_from 1 jobs.now)) }
    ensures ready { IfOk result (λ line. IsReady jobs.now line.change) }
    ensures not_yet { (result ≡ Err ServeFault.NotYet) ↔ (took jobs.now (waiting_from 1 jobs.now) ≡ None) }
    ensures room { result ≢ Err ServeFault.LogFull }
{
    let Some((number, job)) = jobs.waiting() else {
        return Err(ServeFault::NotYet);
    };
    let answer = told(number, job)?;
    Ok(Line {
        answer,
        change: Change::Take(number),
    })
}

// Reply: the job's answer, and the point of it.
fn reply(jobs: &JobQueue, job: JobNo, reply: &Reply, at: At) -> Result<Line, NoMemory>
    ensures line { IfOk result (λ line. Some (served_by jobs.now line) ≡ serve_desk jobs.now (Ask.Reply job reply.now at)) }
    ensures ready { IfOk result (λ line. IsReady jobs.now line.change) }
{
    let reply = reply.copy()?;
    Ok(Line {
        answer: Answer::Done(None),
        change: Change::Answer(job, reply, at),
    })
}

// Collect: the job's answer.
fn collect(jobs: &JobQueue, job: JobNo) -> Result<Line, ServeFault>
    ensures line { IfOk result (λ line. Some (served_by jobs.now line) ≡ collected jobs.now (answer_in (job_numbered job.0 jobs.now))) }
    ensures ready { IfOk result (λ line. IsReady jobs.now line.change) }
    ensures not_yet { (result ≡ Err ServeFault.NotYet) ↔ (collected jobs.now (answer_in (job_numbered job.0 jobs.now)) ≡ None) }
    ensures room { result ≢ Err ServeFault.LogFull }
{
    match jobs.numbered(job) {
        Some(
            Job {
                answer: Some((reply, at)),
                ..
            },
        ) => {
            let reply = reply.copy()?;
            Ok(Line {
                answer: Answer::Answered(reply, *at),
                change: Change::Keep,
            })
        }
        _ => Err(ServeFault::NotYet),
    }
}

/// The line of the table that the ask meets. NotYet comes exactly where the table has no step: no job waits, or the job
/// has no answer.
pub fn line_of(jobs: &JobQueue, ask: &Ask) -> Result<Line, ServeFault>
    ensures line { IfOk result (λ line. Some (served_by jobs.now line) ≡ serve_desk jobs.now ask.now) }
    ensures ready { IfOk result (λ line. IsReady jobs.now line.change) }
    ensures not_yet { (result ≡ Err ServeFault.NotYet) ↔ (serve_desk jobs.now ask.now ≡ None) }
    ensures room { result ≢ Err ServeFault.LogFull }
{
    match ask {
        Ask::Submit {
            client,
            dir,
            name,
            to_dir,
            to_name,
            ts,
        } => Ok(submit(jobs, *client, *dir, name, *to_dir, to_name, *ts)?),
        Ask::TakeJob => take(jobs),
        Ask::Reply {
            job,
            reply: told,
            at,
        } => Ok(reply(jobs, *job, told, *at)?),
        Ask::Collect { job } => collect(jobs, *job),
        _ => Ok(Line {
            answer: Answer::None,
            change: Change::Keep,
        }),
    }
}

/// Makes the change of a line, which takes the job that waits and no other. Only a job that is handed in wants memory, and
/// it was not taken.
pub fn make(jobs: &mut JobQueue, change: Change) -> Result<(), NoMemory>
    requires { IsReady jobs.old change }
    ensures ok { OnOk result (jobs.new ≡ after jobs.old change) }
    ensures err { OnErr result (jobs.new ≡ jobs.old) }
{
    match change {
        Change::Keep => Ok(()),
        Change::Submit(job) => jobs.push(job),
        Change::Take(_) => {
            jobs.take();
            Ok(())
        }
        Change::Answer(job, reply, at) => {
            jobs.answer(job, reply, at);
            Ok(())
        }
    }
}
