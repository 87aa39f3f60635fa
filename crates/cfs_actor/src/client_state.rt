//! The state of a client.
ghost use Rattle.std.specs.Prelude.{◌≡◌, ◌<◌, ◌≤◌, ◌+◌, ◌++◌, ◌∷◌, [], IsTrue, IfOk, IsOk, OnOk, OnErr, Some, None, true, false, is_none};
ghost use Rattle.std.specs.List.{list_all};
ghost use Rattle.cfs_steps.specs.Phases.{Asking, heard};
ghost use Rattle.cfs_rules.specs.Worlds.{IsCount, starts, next_ask, hears, calls_of, rest_of};
ghost use Rattle.cfs_walk.specs.Commands.{is_in_form};
ghost use Rattle.cfs_actor.specs.CallMachines.{client_in, index_in, phase_in};
ghost use Rattle.cfs_actor.specs.Plans.{HasSteps, plan_of};
ghost use Rattle.cfs_actor.specs.Programs.{plan_in, waits};
ghost use Rattle.cfs_actor.specs.States.{counts, is_own, is_begun, fits, is_awaited, is_last, kept_puts, answers_now, is_going_now, is_ready, rests};

use crate::call_machine::CallMachine;
use crate::kept::KeptEntry;
use crate::program::Program;
use crate::waiting::CommandQueue;
use cfs_ids::{Call, Client, NoMemory, PlaceNo, Ts};
use cfs_steps::{Ask, CallDone, CallList, ClientCalls, Entry, Machine};
use std::alloc::Global;

/// A client: its current call, what it has left to do, and the calls that are done. After a step it keeps the entry until
/// `settle` works it in and begins the next call; as contracts see it, both were done at once. Its puts of files and
/// directories are one count: `puts` is how many nodes it has put, without that of a kept entry.
#[derive(Drop)]
pub struct ClientState {
    client: Client,
    shards: u32,
    stores: u32,
    program: Program,
    current: Option<CallMachine>,
    ended: bool,
    last: Ts,
    puts: u64,
    done: Vec<CallDone>,
    kept: Option<KeptEntry>,
    ghost some_shards: { IsCount shards },
    ghost some_stores: { IsCount stores },
    ghost own: { IsTrue (is_own (counts shards stores) client puts current) },
    ghost fitting: { IsTrue (fits kept current) },
    ghost awaited: { IsTrue (is_awaited current program) },
    ghost stamped: { IsTrue (is_last kept last) },
    ghost resting: { IsTrue (rests ended kept current program) },
    ghost counted: { puts + kept_puts kept ≤ last },
}

// The index of the shard of the call's directory, or of the store of its file. The sum may be over 64 bits.
fn put_index(client: Client, shards: u32, stores: u32, puts: u64, call: &Call) -> u32
    requires shards { IsCount shards }
    requires stores { IsCount stores }
    ensures index { result ≡ Rattle.cfs_rules.specs.Worlds.put_index (counts shards stores) client puts (Asking call.now) }
    ensures small { result < 64 }
{
    let places = match call {
        Call::Mkdir { .. } => shards,
        _ => stores,
    };
    ((client.0 as u128 + puts as u128) % places as u128) as u32
}

// How many nodes the ask puts.
fn puts_in(ask: &Ask) -> u64
    ensures puts { result ≡ Rattle.cfs_rules.specs.Worlds.puts_in ask.now }
    ensures small { result ≤ 1 }
{
    match ask {
        Ask::Put { .. } | Ask::PutDir { .. } => 1,
        _ => 0,
    }
}

// Hears the kept entry, unless the call has ended with it already.
fn hear_kept(machine: &mut CallMachine, kept: &KeptEntry) -> Result<(), NoMemory>
    requires { IsTrue (fits (Some kept.now) (Some machine.old)) }
    ensures ok { OnOk result (phase_in machine.new ≡ heard (phase_in machine.old) kept.now.place kept.now.entry) }
    ensures err { OnErr result (phase_in machine.new ≡ phase_in machine.old) }
    ensures client { client_in machine.new ≡ client_in machine.old }
    ensures index { index_in machine.new ≡ index_in machine.old }
    ensures begun { OnOk result (IsTrue (is_begun (phase_in machine.new))) }
{
    if machine.finished().is_some() {
        return Ok(());
    }
    machine.hear(kept.place, &kept.entry)
}

// Adds a finished call to those that are done, and lets the program hear its reply. On Err both are as before.
fn finish_call(
    program: &mut Program,
    calls: &mut Vec<CallDone>,
    call: &CallDone,
) -> Result<(), NoMemory>
    requires { IsTrue (waits program.old) }
    ensures calls { OnOk result (calls.new.items ≡ calls.old.items ++ call.now ∷ []) }
    ensures plan { OnOk result (plan_in program.new ≡ rest_of (plan_in program.old) call.now.reply) }
    ensures same_calls { OnErr result (calls.new.items ≡ calls.old.items) }
    ensures same_plan { OnErr result (plan_in program.new ≡ plan_in program.old) }
    ensures waits { OnErr result (IsTrue (waits program.new)) }
{
    let copy = call.clone()?;
    calls.reserve(1)?;
    program.hear(&call.reply)?;
    calls.push(copy).unwrap();
    Ok(())
}

impl ClientState {
    ghost use Rattle.cfs_actor.specs.Clients.{client_of, counts_of, progress_of, is_settled};

    /// The client with these commands to carry out, whose calls are made up to `tries` times each, over 1 to 64 shards
    /// and 1 to 64 stores.
    pub fn new(
        alloc: Global,
        client: Client,
        commands: CommandQueue,
        tries: u32,
        shards: u32,
        stores: u32,
    ) -> ClientState
        requires shards { IsCount shards }
        requires stores { IsCount stores }
        requires tries { 1 ≤ tries }
        requires form { IsTrue (list_all is_in_form commands) }
        requires steps { HasSteps (plan_of tries commands) }
        ensures progress { progress_of result ≡ starts (plan_of tries commands) }
        ensures client { client_of result ≡ client }
        ensures counts { counts_of result ≡ counts shards stores }
    {
        let program = Program::new(alloc, commands, tries);
        ClientState {
            client,
            shards,
            stores,
            program,
            current: None,
            ended: false,
            last: 0,
            puts: 0,
            done: Vec::new(alloc),
            kept: None,
        }
    }

    /// The client.
    pub fn client(&self) -> Client
        ensures { result ≡ client_of self.now }
    {
        self.client
    }

    /// The client's last number, 0 before its first step.
    pub fn last(&self) -> Ts
        requires { IsTrue (is_settled self.now) }
        ensures { result ≡ (progress_of self.now).last }
    {
        self.last
    }

    /// Whether the client has made its End step.
    pub fn has_ended(&self) -> bool
        requires { IsTrue (is_settled self.now) }
        ensures { result ≡ (progress_of self.now).ended }
    {
        self.ended
    }

    /// The next ask: that of the current call, and End after the last. The Err is want of memory, which End doesn't take.
    pub fn ask(&self) -> Result<Ask, NoMemory>
        requires settled { IsTrue (is_settled self.now) }
        requires going { (progress_of self.now).ended ≡ false }
        ensures ask { IfOk result (λ ask. Some ask ≡ next_ask (counts_of self.now) (client_of self.now) (progress_of self.now)) }
        ensures going { IsTrue (is_going_now (progress_of self.now).current) }
        ensures end { (progress_of self.now).current ≡ None → IsOk result }
    {
        match &self.current {
            Some(machine) => machine.ask(self.last),
            None => Ok(Ask::End {
                client: self.client,
            }),
        }
    }

    /// Takes the entry of the step that was asked, whose number is above the client's last; it takes no memory.
    pub fn hear(&mut self, place: PlaceNo, entry: Entry)
        requires settled { IsTrue (is_settled self.old) }
        requires going { (progress_of self.old).ended ≡ false }
        requires listed { IsTrue (answers_now (progress_of self.old).current entry.answer) }
        requires newer { (progress_of self.old).last < entry.number }
        ensures progress { progress_of self.new ≡ hears (progress_of self.old) place entry }
        ensures client { client_of self.new ≡ client_of self.old }
        ensures counts { counts_of self.new ≡ counts_of self.old }
    {
        self.last = entry.number;
        if self.current.is_none() {
            self.ended = true;
        } else {
            self.kept = Some(KeptEntry { place, entry });
        }
    }

    /// Works a kept entry in, and begins the next call where none is on its way. On Err the client is as before. A client
    /// that is settled needs no memory, and one that has ended is settled.
    pub fn settle(&mut self) -> Result<(), NoMemory>
        ensures progress { progress_of self.new ≡ progress_of self.old }
        ensures client { client_of self.new ≡ client_of self.old }
        ensures counts { counts_of self.new ≡ counts_of self.old }
        ensures settled { OnOk result (IsTrue (is_settled self.new)) }
        ensures ended { (progress_of self.old).ended ≡ true → IsOk result }
        ensures sure { IsTrue (is_settled self.old) → IsOk result }
    {
        if self.is_settled() {
            return Ok(());
        }
        self.work_in()?;
        self.begin()
    }

    // Whether no entry is kept, and a call is on its way or nothing is left to do.
    fn is_settled(&self) -> bool
        ensures settled { result ≡ is_settled self.now }
        ensures ended { (progress_of self.now).ended ≡ true → result ≡ true }
    {
        self.kept.is_none() && (self.current.is_some() || self.program.is_over())
    }

    // Works a kept entry in. On Err it is still kept.
    fn work_in(&mut self) -> Result<(), NoMemory>
        ensures progress { progress_of self.new ≡ progress_of self.old }
        ensures client { client_of self.new ≡ client_of self.old }
        ensures counts { counts_of self.new ≡ counts_of self.old }
        ensures kept { OnOk result (IsTrue (is_none self.new.kept)) }
    {
        let Some(kept) = &self.kept else {
            return Ok(());
        };
        let Some(machine) = &mut self.current else {
            unreachable!();
        };
        hear_kept(machine, kept)?;
        let puts = self.puts + puts_in(&kept.entry.ask);
        if let Some(call) = machine.finished() {
            finish_call(&mut self.program, &mut self.done, call)?;
            drop(self.current.take());
        }
        self.puts = puts;
        self.kept = None;
        Ok(())
    }

    // Begins the next call, where none is on its way.
    fn begin(&mut self) -> Result<(), NoMemory>
        requires { IsTrue (is_none self.old.kept) }
        ensures progress { progress_of self.new ≡ progress_of self.old }
        ensures client { client_of self.new ≡ client_of self.old }
        ensures counts { counts_of self.new ≡ counts_of self.old }
        ensures settled { OnOk result (IsTrue (is_settled self.new)) }
    {
        if self.is_settled() {
            return Ok(());
        }
        if let Some(call) = self.program.next_call()? {
            let index = put_index(self.client, self.shards, self.stores, self.puts, &call);
            self.current = Some(CallMachine::start(self.client, call, index));
        }
        Ok(())
    }

    /// The client's finished calls, and the one that has begun.
    pub fn calls(&self) -> Result<ClientCalls, NoMemory>
        requires { IsTrue (is_settled self.now) }
        ensures { IfOk result (λ calls. calls ≡ calls_of (client_of self.now) (progress_of self.now)) }
    {
        let begun = match &self.current {
            Some(machine) => machine.begun()?,
            None => None,
        };
        Ok(ClientCalls {
            client: self.client,
            done: CallList::of(self.done.clone()?),
            begun,
        })
    }
}
