//! What a client has left to do.
ghost use Rattle.std.specs.Prelude.{◌≡◌, ◌≤◌, ◌<◌, ◌∷◌, [], IsTrue, IfOk, IsNone, MatchOption, OnOk, OnErr, Some, None, true, false, is_none, length};
ghost use Rattle.std.specs.List.{list_all};
ghost use Rattle.next_ids.specs.declared.call.Call.{Call};
ghost use Rattle.next_steps.specs.Phases.{Asking};
ghost use Rattle.next_rules.specs.Actors.{first_of, rest_of};
ghost use Rattle.next_walk.specs.Commands.{is_in_form};
ghost use Rattle.next_actor.specs.Left.{no_commands};
ghost use Rattle.next_actor.specs.Plans.{plan_of};
ghost use Rattle.next_actor.specs.Replies.{told_from};

use crate::replies::ReplyList;
use crate::waiting::CommandQueue;
use next_ids::{Call, NoMemory, Reply};
use next_walk::Walk;
use std::alloc::Global;

/// The commands of a client: the walk of the one that it carries out, and those that wait. As contracts see it, it is the
/// plan that these make.
#[derive(Drop)]
pub struct Program {
    alloc: Global,
    tries: u32,
    walk: Option<Walk>,
    waiting: CommandQueue,
    // the replies of the commands that have ended
    replies: ReplyList,
    ghost some_tries: { 1 ≤ tries },
    ghost formed: { IsTrue (list_all is_in_form waiting) },
}

impl Program {
    ghost use Rattle.next_actor.specs.Programs.{plan_in, told_in, waits, is_over, WaitsFor};

    /// These commands, whose calls are made up to `tries` times each.
    pub fn new(alloc: Global, commands: CommandQueue, tries: u32) -> Program
        requires tries { 1 ≤ tries }
        requires form { IsTrue (list_all is_in_form commands) }
        ensures plan { plan_in result ≡ plan_of tries commands }
        ensures told { told_in result ≡ told_from tries commands }
    {
        Program {
            alloc,
            tries,
            walk: None,
            waiting: commands,
            replies: ReplyList::new(alloc),
        }
    }

    /// Whether nothing is left to do.
    pub fn is_over(&self) -> bool
        ensures over { result ≡ is_over self.now }
    {
        self.walk.is_none() && self.waiting.is_empty()
    }

    /// The next call. None comes exactly where nothing is left to do. The Err is want of memory.
    pub fn next_call(&mut self) -> Result<Option<Call>, NoMemory>
        ensures plan { plan_in self.new ≡ plan_in self.old }
        ensures told { told_in self.new ≡ told_in self.old }
        ensures call { IfOk result (λ call. MatchOption call (IsTrue (is_over self.new)) (WaitsFor self.new)) }
    {
        loop {
            if let Some(call) = self.call_of_walk()? {
                return Ok(Some(call));
            }
            if self.waiting.is_empty() {
                return Ok(None);
            }
            self.start_walk()?;
        }
    }

    // The call that the walk has made. A walk that has its reply goes.
    fn call_of_walk(&mut self) -> Result<Option<Call>, NoMemory>
        ensures plan { plan_in self.new ≡ plan_in self.old }
        ensures told { told_in self.new ≡ told_in self.old }
        ensures call { IfOk result (λ call. MatchOption call (IsTrue (is_none self.new.walk)) (WaitsFor self.new)) }
        ensures waiting { self.new.waiting ≡ self.old.waiting }
    {
        let Some(walk) = &self.walk else {
            return Ok(None);
        };
        if let Some(call) = walk.next_call()? {
            return Ok(Some(call));
        }
        let Some(reply) = walk.reply() else {
            unreachable!();
        };
        self.replies.add(reply)?;
        self.walk = None;
        Ok(None)
    }

    // Begins the walk of the next command, where no walk is on its way.
    fn start_walk(&mut self) -> Result<(), NoMemory>
        requires free { IsTrue (is_none self.old.walk) }
        requires some { no_commands self.old.waiting ≡ false }
        ensures plan { plan_in self.new ≡ plan_in self.old }
        ensures told { told_in self.new ≡ told_in self.old }
        ensures fewer { OnOk result (length self.new.waiting < length self.old.waiting) }
    {
        let Some(command) = self.waiting.first() else {
            unreachable!();
        };
        let walk = Walk::start(self.alloc, command, self.tries)?;
        self.walk = Some(walk);
        let _ = self.waiting.take();
        Ok(())
    }

    /// Goes on by the reply to its call. The Err is want of memory, and leaves the plan as before.
    pub fn hear(&mut self, reply: &Reply) -> Result<(), NoMemory>
        requires { IsTrue (waits self.old) }
        ensures ok { OnOk result (plan_in self.new ≡ rest_of (plan_in self.old) reply.now) }
        ensures told { OnOk result (told_in self.new ≡ λ calls. told_in self.old (reply.now ∷ calls)) }
        ensures err { OnErr result (plan_in self.new ≡ plan_in self.old) }
        ensures err_told { OnErr result (told_in self.new ≡ told_in self.old) }
        ensures waits { OnErr result (IsTrue (waits self.new)) }
    {
        match &mut self.walk {
            Some(walk) => {
                walk.hear(reply)?;
                Ok(())
            }
            None => unreachable!(),
        }
    }

    /// The replies of the commands that have ended.
    pub fn replies(&self) -> &ReplyList
        ensures now { result.now ≡ self.now.replies }
        ensures told { IsTrue (waits self.now) → result.now ≡ told_in self.now [] }
        ensures all { IsTrue (is_over self.now) → result.now ≡ told_in self.now [] }
    {
        &self.replies
    }
}
