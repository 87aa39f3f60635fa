//! The law of the namespace: it is one tree, whatever is called.
#![tactic(auto)]

ghost use Rattle.std.specs.Prelude.{◌≡◌, ℕ, Option, false};
ghost use Rattle.next_ids.specs.declared.call.Call.{Call};
ghost use Rattle.next_ids.specs.declared.ids.Node.{Node};
ghost use Rattle.next_ids.specs.declared.time.Ts.{Ts};
ghost use Rattle.next_ids.specs.Namespace.{Namespace, empty_root, after, forget, is_listed, IsDefined, IsWhole, IsNamedOnce};

/// The empty root is whole. Each call that moves, with a new node of its kind where it makes one, leaves a whole
/// namespace whole, and so does a file that is forgotten where no list names it. Where no node had two names before, none
/// has two names then.
pub fn whole_stays_whole()
    ensures root { IsWhole empty_root }
    ensures moves { (n : Namespace) (call : Call) (made : Option Node) (ts : Ts) → IsWhole n → IsDefined n call made → IsWhole (after n call made ts) }
    ensures forgets { (n : Namespace) (f : ℕ) → IsWhole n → is_listed n f ≡ false → IsWhole (forget n f) }
    ensures root_once { IsNamedOnce empty_root }
    ensures moves_once { (n : Namespace) (call : Call) (made : Option Node) (ts : Ts) → IsWhole n → IsNamedOnce n → IsDefined n call made → IsNamedOnce (after n call made ts) }
    ensures forgets_once { (n : Namespace) (f : ℕ) → IsNamedOnce n → IsNamedOnce (forget n f) }
{}
