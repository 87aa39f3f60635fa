//! The laws of plain runs, in which clients alone take turns and call no rename: what the places hold, and what each
//! client's call has come to.
#![tactic(auto)]

ghost use Rattle.std.specs.Prelude.{◌≡◌, List, true};
ghost use Rattle.std.specs.List.{list_all};
ghost use Rattle.next_rules.specs.Worlds.{Setup, Turn, played};
ghost use Rattle.next_laws_told.specs.Ledgers.{IsRight};
ghost use Rattle.next_laws_calls.specs.Claimed.{ledger};
ghost use Rattle.next_laws_calls.specs.Plain.{IsPlain, by_client};
ghost use Rattle.next_laws_calls.specs.Worlds.{Holds, Past};

/// In every world of a plain run each node is in one stage of its life, of which the places hold just what belongs to
/// it, and each client has of nodes what its call needs. The tree of the places is the namespace that the moves so far
/// have made of the empty root, and each of them was one that the namespace allowed.
pub fn plain_runs_keep_the_places()
    ensures holds { (setup : Setup) → IsPlain setup → (turns : List Turn) → list_all by_client turns ≡ true
        → Holds (played setup turns) }
    ensures past { (setup : Setup) → IsPlain setup → (turns : List Turn) → list_all by_client turns ≡ true
        → Past (played setup turns) }
{}

/// The ledger, which tells by a client's phase and by the debt that a removal of its mark has left what its call has come
/// to, is right about every plain run: each step of a client tells what it makes of each client's call.
pub fn the_ledger_is_right()
    ensures { (setup : Setup) → IsPlain setup → IsRight setup by_client ledger }
{}
