//! The machines that make a call step by step.
ghost use Rattle.std.specs.Prelude.{◌≡◌, ℕ, IsTrue, IfOk, OnOk, OnErr};
ghost use Rattle.std.specs.Option.{option_copied};
ghost use Rattle.next_ids.specs.declared.ids.Client.{Client};
ghost use Rattle.next_ids.specs.declared.time.Ts.{Ts};
ghost use Rattle.next_steps.specs.Asks.{place_of};
ghost use Rattle.next_steps.specs.Answers.{lists};
ghost use Rattle.next_steps.specs.Phases.{Phase};
ghost use Rattle.next_steps.specs.Calls.{ask_of, heard, done_of, is_going};

use crate::ask::Ask;
use crate::call_done::CallDone;
use crate::entry::Entry;
use next_ids::{NoMemory, PlaceNo, Ts};

/// A call on its way. Its rule is that of its phase, which docs/protocol.md gives call by call.
pub trait Machine {
    // The client that makes the call.
    ghost client: { Self → Client };

    // The index of the shard or store of the client's next put.
    ghost put_index: { Self → ℕ };

    // Where the call is.
    ghost phase: { Self → Phase };

    /// The place of the next ask.
    fn next_place(&self) -> PlaceNo
        requires { IsTrue (is_going (phase self.now)) }
        ensures { (last : Ts) → result ≡ place_of (ask_of (client self.now) (put_index self.now) last (phase self.now)) };

    /// The next ask. `last` has the moment of the step and the client's last number.
    fn ask(&self, last: Ts) -> Result<Ask, NoMemory>
        requires { IsTrue (is_going (phase self.now)) }
        ensures { IfOk result (λ ask. ask ≡ ask_of (client self.now) (put_index self.now) last (phase self.now)) };

    /// Takes the entry of the step, whose answer is one that the tables list for its ask. On Err the machine is as before.
    fn hear(&mut self, place: PlaceNo, entry: &Entry) -> Result<(), NoMemory>
        requires going { IsTrue (is_going (phase self.old)) }
        requires listed { IsTrue (lists entry.now.ask entry.now.answer) }
        ensures ok { OnOk result (phase self.new ≡ heard (phase self.old) place entry.now) }
        ensures err { OnErr result (phase self.new ≡ phase self.old) }
        ensures same_client { client self.new ≡ client self.old }
        ensures same_index { put_index self.new ≡ put_index self.old };

    /// The finished call. None comes exactly where the call has not ended.
    fn finished(&self) -> Option<&CallDone>
        ensures { option_copied result ≡ done_of (phase self.now) };
}
