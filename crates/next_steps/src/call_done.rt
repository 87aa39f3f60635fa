//! Finished calls, and the calls of a client.
ghost use Rattle.std.specs.Prelude.{◌≡◌, [], ◌∷◌, ◌++◌, length, slice_get, OnOk, OnErr, IfOk, IfErr};
ghost use Rattle.std.specs.Option.{option_copied};

use next_ids::{At, Call, Client, NoMemory, Node, Reply, Stamp, Ts};
use std::alloc::{AllocError, Global};
use std::marker::Model;

/// A finished call: its first and last own steps, the point of its reply, and, where it moved, the time of the move
/// and the node that it made. For another reply `ts` is 0 and `made` None.
#[derive(Debug, Drop)]
pub struct CallDone {
    pub call: Call,
    pub first: Stamp,
    pub at: At,
    pub last: Stamp,
    pub reply: Reply,
    pub ts: Ts,
    pub made: Option<Node>,
}

impl Clone for CallDone {
    ghost is_clone = { λ done copy. copy ≡ done };

    fn clone(&self) -> Result<Self, AllocError> {
        let call = self.call.clone()?;
        let reply = self.reply.clone()?;
        Ok(CallDone {
            call,
            first: self.first,
            at: self.at,
            last: self.last,
            reply,
            ts: self.ts,
            made: self.made,
        })
    }
}

/// Finished calls in order.
#[derive(Debug, Drop)]
pub struct CallList {
    calls: Vec<CallDone>,
}

impl Model for CallList {
    ghost use Rattle.std.specs.Prelude.{List};
    ghost use Rattle.next_steps.specs.declared.call_done.CallDone.{CallDone};

    ghost Value = { List CallDone };

    ghost view = { λ list. list.calls.items };
}

impl CallList {
    /// No calls.
    pub fn new(alloc: Global) -> CallList
        ensures { result ≡ [] }
    {
        CallList {
            calls: Vec::new(alloc),
        }
    }

    /// These calls.
    pub fn of(calls: Vec<CallDone>) -> CallList
        ensures { result ≡ calls.items }
    {
        CallList { calls }
    }

    /// How many calls there are.
    pub fn len(&self) -> usize
        ensures { result ≡ length self.now }
    {
        self.calls.len()
    }

    /// The i-th call, from 0. None comes exactly at and past the length.
    pub fn get(&self, i: usize) -> Option<&CallDone>
        ensures { option_copied result ≡ slice_get self.now i }
    {
        self.calls.get(i)
    }

    /// The calls.
    pub fn as_slice(&self) -> &[CallDone]
        ensures { result.now ≡ self.now }
    {
        self.calls.as_slice()
    }

    /// Adds a call. The Err is want of memory, and hands the call back.
    pub fn push(&mut self, call: CallDone) -> Result<(), CallDone>
        ensures ok { OnOk result (self.new ≡ self.old ++ call ∷ []) }
        ensures err { OnErr result (self.new ≡ self.old) }
        ensures back { IfErr result (λ back. back ≡ call) }
    {
        match self.calls.push(call) {
            Ok(()) => Ok(()),
            Err(failed) => Err(failed.value),
        }
    }

    /// A copy.
    pub fn copy(&self) -> Result<CallList, NoMemory>
        ensures { IfOk result (λ copy. copy ≡ self.now) }
    {
        Ok(CallList {
            calls: self.calls.clone()?,
        })
    }
}

/// The calls of a client: the finished ones in order, and the one that has made a step and isn't finished, with its
/// first step.
#[derive(Debug, Drop)]
pub struct ClientCalls {
    pub client: Client,
    pub done: CallList,
    pub begun: Option<(Call, Stamp)>,
}
