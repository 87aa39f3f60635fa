//! The state of a client.
ghost use Rattle.std.specs.Prelude.{◌≡◌, ◌<◌, ◌≤◌, ◌+◌, ◌++◌, ◌∷◌, [], IsTrue, IfOk, IsOk, OnOk, OnErr, Some, None, true, false, not, ◌&&◌, is_none, is_some};
ghost use Rattle.std.specs.List.{list_all};
ghost use Rattle.std.specs.Option.{option_map};
ghost use Rattle.next_steps.specs.Asks.{place_of};
ghost use Rattle.next_steps.specs.Calls.{heard};
ghost use Rattle.next_steps.specs.Counts.{puts_in, index_for};
ghost use Rattle.next_rules.specs.Actors.{starts, is_due, doing, asked, hears, calls_of, rest_of};
ghost use Rattle.next_rules.specs.Setups.{IsCount};
ghost use Rattle.next_walk.specs.Commands.{is_in_form};
ghost use Rattle.next_calls.specs.CallMachines.{client_in, index_in, phase_in};
ghost use Rattle.next_actor.specs.Plans.{plan_of};
ghost use Rattle.next_actor.specs.Programs.{plan_in, told_in, waits};
ghost use Rattle.next_actor.specs.Replies.{told_from, reply_by};
ghost use Rattle.next_actor.specs.States.{is_own, is_begun, fits, is_awaited, is_last, kept_puts, kept_steps, rests, may_keep, is_listed, is_going_on, is_final, is_ready, job_in};

use crate::kept::KeptEntry;
use crate::program::Program;
use crate::replies::ReplyList;
use crate::waiting::CommandQueue;
use next_calls::CallMachine;
use next_ids::{Call, Client, Counts, JobNo, NoMemory, PlaceNo, Ts};
use next_steps::{Ask, CallDone, CallList, ClientCalls, Entry, Machine};
use std::alloc::Global;

// The place that keeps which clients have stopped or ended.
const ROSTER: PlaceNo = PlaceNo(129);

/// A client: its current call, what it has left to do, and the calls that are done. After a step it keeps the entry until
/// `settle` works it in and begins the next call; as contracts see it, both were done at once. Its steps and its puts of
/// files and directories are counted without a kept entry.
#[derive(Drop)]
pub struct ClientState {
    client: Client,
    counts: Counts,
    program: Program,
    current: Option<CallMachine>,
    // after how many steps it stops
    stop: Option<u64>,
    steps: u64,
    // whether it has made its Stop or End step
    ended: bool,
    last: u64,
    puts: u64,
    done: Vec<CallDone>,
    kept: Option<KeptEntry>,
    ghost some_shards: { IsCount counts.shards },
    ghost some_stores: { IsCount counts.stores },
    ghost own: { IsTrue (is_own counts client puts current) },
    ghost fitting: { IsTrue (fits kept current) },
    ghost awaited: { IsTrue (is_awaited current program) },
    ghost stamped: { IsTrue (is_last kept last) },
    ghost resting: { IsTrue (rests ended kept current program) },
    ghost going: { IsTrue (may_keep kept (is_due stop steps)) },
    ghost counted: { puts + kept_puts kept ≤ last },
    ghost stepped: { steps + kept_steps kept ≤ last },
}

// The index of the shard of the call's directory, or of the store of its file. The sum may be over 64 bits.
fn put_index(client: Client, counts: Counts, puts: u64, call: &Call) -> u32
    requires shards { IsCount counts.shards }
    requires stores { IsCount counts.stores }
    ensures index { result ≡ index_for counts client puts call.now }
    ensures small { result < 64 }
{
    let places = match call {
        Call::Mkdir { .. } => counts.shards,
        _ => counts.stores,
    };
    ((client.0 as u128 + puts as u128) % places as u128) as u32
}

// How many nodes the ask puts.
fn puts_in(ask: &Ask) -> u64
    ensures puts { result ≡ puts_in ask.now }
    ensures small { result ≤ 1 }
{
    match ask {
        Ask::Put { .. } | Ask::PutDir { .. } => 1,
        _ => 0,
    }
}

// Hears the kept entry, unless the call has ended with it already.
fn hear_kept(machine: &mut CallMachine, kept: &KeptEntry) -> Result<(), NoMemory>
    requires { IsTrue (fits (Some kept.now) (Some machine.old)) }
    ensures ok { OnOk result (phase_in machine.new ≡ heard (phase_in machine.old) kept.now.place kept.now.entry) }
    ensures err { OnErr result (phase_in machine.new ≡ phase_in machine.old) }
    ensures client { client_in machine.new ≡ client_in machine.old }
    ensures index { index_in machine.new ≡ index_in machine.old }
    ensures begun { OnOk result (IsTrue (is_begun (phase_in machine.new))) }
{
    if machine.finished().is_some() {
        return Ok(());
    }
    machine.hear(kept.place, &kept.entry)
}

// Adds a finished call to those that are done, and lets the program hear its reply. On Err both are as before.
fn finish_call(
    program: &mut Program,
    calls: &mut Vec<CallDone>,
    call: &CallDone,
) -> Result<(), NoMemory>
    requires { IsTrue (waits program.old) }
    ensures calls { OnOk result (calls.new.items ≡ calls.old.items ++ call.now ∷ []) }
    ensures plan { OnOk result (plan_in program.new ≡ rest_of (plan_in program.old) call.now.reply) }
    ensures same_calls { OnErr result (calls.new.items ≡ calls.old.items) }
    ensures told { OnOk result (told_in program.new ≡ λ calls. told_in program.old (call.now.reply ∷ calls)) }
    ensures same_plan { OnErr result (plan_in program.new ≡ plan_in program.old) }
    ensures same_told { OnErr result (told_in program.new ≡ told_in program.old) }
    ensures waits { OnErr result (IsTrue (waits program.new)) }
{
    let copy = call.clone()?;
    calls.reserve(1)?;
    program.hear(&call.reply)?;
    calls.push(copy).unwrap();
    Ok(())
}

impl ClientState {
    ghost use Rattle.next_actor.specs.Clients.{client_of, counts_of, progress_of, told_of, is_settled};

    /// The client with these commands to carry out, whose calls are made up to `tries` times each. It stops after `stop`
    /// steps, where there is such a number. The service has 1 to 64 shards and 1 to 64 stores.
    pub fn new(
        alloc: Global,
        client: Client,
        commands: CommandQueue,
        stop: Option<u64>,
        tries: u32,
        counts: Counts,
    ) -> ClientState
        requires shards { IsCount counts.shards }
        requires stores { IsCount counts.stores }
        requires tries { 1 ≤ tries }
        requires form { IsTrue (list_all is_in_form commands) }
        ensures progress { progress_of result ≡ starts (plan_of tries commands) stop }
        ensures told { told_of result ≡ told_from tries commands }
        ensures client { client_of result ≡ client }
        ensures counts { counts_of result ≡ counts }
    {
        let program = Program::new(alloc, commands, tries);
        ClientState {
            client,
            counts,
            program,
            current: None,
            stop,
            steps: 0,
            ended: false,
            last: 0,
            puts: 0,
            done: Vec::new(alloc),
            kept: None,
        }
    }

    /// The client.
    pub fn client(&self) -> Client
        ensures { result ≡ client_of self.now }
    {
        self.client
    }

    /// The client's last number, 0 before its first step.
    pub fn last(&self) -> u64
        requires { IsTrue (is_settled self.now) }
        ensures { result ≡ (progress_of self.now).last }
    {
        self.last
    }

    /// Whether the client has made its Stop or End step.
    pub fn has_ended(&self) -> bool
        requires { IsTrue (is_settled self.now) }
        ensures { result ≡ (progress_of self.now).ended }
    {
        self.ended
    }

    // Whether the client has made the steps after which it stops.
    fn is_due(&self) -> bool
        ensures { result ≡ is_due self.now.stop self.now.steps }
    {
        match self.stop {
            Some(stop) => stop <= self.steps,
            None => false,
        }
    }

    // Whether the next step is one of the current call, where the client has not ended.
    fn has_call(&self) -> bool
        ensures { result ≡ (not (is_due self.now.stop self.now.steps) && is_some self.now.current) }
    {
        !self.is_due() && self.current.is_some()
    }

    /// The place of the next ask. None comes exactly where the client has made its Stop or End step. It takes no memory.
    pub fn next_place(&self) -> Option<PlaceNo>
        requires { IsTrue (is_settled self.now) }
        ensures place { (moment : _) → result ≡ option_map place_of (asked (counts_of self.now) (client_of self.now) moment (progress_of self.now) (doing (progress_of self.now))) }
        ensures ended { is_none result ≡ (progress_of self.now).ended }
    {
        if self.ended {
            return None;
        }
        match &self.current {
            Some(machine) if !self.is_due() => Some(machine.next_place()),
            _ => Some(ROSTER),
        }
    }

    /// The next ask, at this moment: Stop once the client has made the steps after which it stops, else that of the current
    /// call, and End after the last. The Err is want of memory, which Stop and End don't take.
    pub fn ask(&self, moment: u64) -> Result<Ask, NoMemory>
        requires settled { IsTrue (is_settled self.now) }
        requires going { (progress_of self.now).ended ≡ false }
        ensures ask { IfOk result (λ ask. Some ask ≡ asked (counts_of self.now) (client_of self.now) moment (progress_of self.now) (doing (progress_of self.now))) }
        ensures going { IsTrue (is_going_on (doing (progress_of self.now))) }
        ensures sure { IsTrue (is_final (doing (progress_of self.now))) → IsOk result }
    {
        let client = self.client;
        if self.is_due() {
            return Ok(Ask::Stop { client });
        }
        match &self.current {
            Some(machine) => machine.ask(Ts {
                moment,
                number: self.last,
            }),
            None => Ok(Ask::End { client }),
        }
    }

    /// Takes the entry of the step that was asked, with an answer that the tables list for its ask, and a number above the
    /// client's last. It takes no memory.
    pub fn hear(&mut self, place: PlaceNo, entry: Entry)
        requires settled { IsTrue (is_settled self.old) }
        requires going { (progress_of self.old).ended ≡ false }
        requires asked { Some entry.ask ≡ asked (counts_of self.old) (client_of self.old) entry.moment (progress_of self.old) (doing (progress_of self.old)) }
        requires listed { IsTrue (is_listed entry (doing (progress_of self.old))) }
        requires newer { (progress_of self.old).last < entry.number }
        ensures progress { progress_of self.new ≡ hears (progress_of self.old) place entry }
        ensures told { told_of self.new ≡ λ calls. told_of self.old (reply_by (doing (progress_of self.old)) place entry ++ calls) }
        ensures client { client_of self.new ≡ client_of self.old }
        ensures counts { counts_of self.new ≡ counts_of self.old }
    {
        self.last = entry.number;
        if self.has_call() {
            self.kept = Some(KeptEntry { place, entry });
        } else {
            self.ended = true;
        }
    }

    /// Works a kept entry in, and begins the next call where none is on its way. On Err the client is as before. A client
    /// that is settled needs no memory, and one that has stopped or ended is settled.
    pub fn settle(&mut self) -> Result<(), NoMemory>
        ensures progress { progress_of self.new ≡ progress_of self.old }
        ensures told { told_of self.new ≡ told_of self.old }
        ensures client { client_of self.new ≡ client_of self.old }
        ensures counts { counts_of self.new ≡ counts_of self.old }
        ensures settled { OnOk result (IsTrue (is_settled self.new)) }
        ensures ended { (progress_of self.old).ended ≡ true → IsOk result }
        ensures sure { IsTrue (is_settled self.old) → IsOk result }
    {
        if self.is_settled() {
            return Ok(());
        }
        self.work_in()?;
        self.begin()
    }

    // Whether no entry is kept, and a call is on its way or nothing is left to do.
    fn is_settled(&self) -> bool
        ensures settled { result ≡ is_settled self.now }
        ensures ended { (progress_of self.now).ended ≡ true → result ≡ true }
    {
        self.kept.is_none() && (self.current.is_some() || self.program.is_over())
    }

    // Works a kept entry in. On Err it is still kept.
    fn work_in(&mut self) -> Result<(), NoMemory>
        ensures progress { progress_of self.new ≡ progress_of self.old }
        ensures told { told_of self.new ≡ told_of self.old }
        ensures client { client_of self.new ≡ client_of self.old }
        ensures counts { counts_of self.new ≡ counts_of self.old }
        ensures kept { OnOk result (IsTrue (is_none self.new.kept)) }
    {
        let Some(kept) = &self.kept else {
            return Ok(());
        };
        let Some(machine) = &mut self.current else {
            unreachable!();
        };
        hear_kept(machine, kept)?;
        let puts = self.puts + puts_in(&kept.entry.ask);
        let steps = self.steps + 1;
        if let Some(call) = machine.finished() {
            finish_call(&mut self.program, &mut self.done, call)?;
            drop(self.current.take());
        }
        self.puts = puts;
        self.steps = steps;
        self.kept = None;
        Ok(())
    }

    // Begins the next call, where none is on its way.
    fn begin(&mut self) -> Result<(), NoMemory>
        requires { IsTrue (is_none self.old.kept) }
        ensures progress { progress_of self.new ≡ progress_of self.old }
        ensures told { told_of self.new ≡ told_of self.old }
        ensures client { client_of self.new ≡ client_of self.old }
        ensures counts { counts_of self.new ≡ counts_of self.old }
        ensures settled { OnOk result (IsTrue (is_settled self.new)) }
    {
        if self.is_settled() {
            return Ok(());
        }
        if let Some(call) = self.program.next_call()? {
            let index = put_index(self.client, self.counts, self.puts, &call);
            self.current = Some(CallMachine::start(self.client, call, index));
        }
        Ok(())
    }

    /// The client's finished calls, and the one that has begun.
    pub fn calls(&self) -> Result<ClientCalls, NoMemory>
        requires { IsTrue (is_settled self.now) }
        ensures { IfOk result (λ calls. calls ≡ calls_of (client_of self.now) (progress_of self.now)) }
    {
        let begun = match &self.current {
            Some(machine) => machine.begun()?,
            None => None,
        };
        Ok(ClientCalls {
            client: self.client,
            done: CallList::of(self.done.clone()?),
            begun,
        })
    }

    /// The job that the current call has submitted and not collected, also once the client has stopped. None comes exactly
    /// where there is none. It takes no memory.
    pub fn job(&self) -> Option<JobNo>
        requires { IsTrue (is_settled self.now) }
        ensures { result ≡ job_in (progress_of self.now).current }
    {
        match &self.current {
            Some(machine) => machine.job(),
            None => None,
        }
    }

    /// The replies of the commands that have ended: those to which their walks come by the replies of the finished calls.
    pub fn replies(&self) -> &ReplyList
        requires { IsTrue (is_settled self.now) }
        ensures { result.now ≡ told_of self.now [] }
    {
        self.program.replies()
    }
}
