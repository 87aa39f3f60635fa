//! The law of answers: a place gives what its table lists for the ask.
#![tactic(auto)]

ghost use Rattle.std.specs.Prelude.{◌≡◌, ◌≤◌, ◌<◌, ◌^◌, ℕ, true, Some};
ghost use Rattle.std.specs.FinMap.{len};
ghost use Rattle.next_ids.specs.declared.ids.Stamp.{Stamp};
ghost use Rattle.next_steps.specs.declared.ask.Ask.{Ask};
ghost use Rattle.next_steps.specs.Answers.{lists};
ghost use Rattle.next_steps.specs.Asks.{place_of, suits};
ghost use Rattle.next_rules.specs.Contents.{Shard, Store, Desk, Roster, Served};
ghost use Rattle.next_rules.specs.Facts.{CountsHold};
ghost use Rattle.next_rules.specs.Places.{serve_shard};
ghost use Rattle.next_rules.specs.Stores.{serve_store};
ghost use Rattle.next_rules.specs.Desks.{serve_desk, serve_roster};
ghost use Rattle.next_laws_answers.specs.Counts.{CountsFit};

/// A place answers an ask of its own, if it is one that places of its kind serve, by an answer that the table lists for the
/// ask. Places below 64 are shards, those below 128 stores; 128 is the desk, and 129 the roster. Of a shard the attributes of
/// its directories are to be counts of at most 2^62: so they are where they count the rows, and there are no more rows.
pub fn answers_are_listed()
    ensures shard { (s : Shard) (at : Stamp) (moment : ℕ) (ask : Ask) → (place_of ask).0 < 64 → suits ask ≡ true → CountsFit s → lists ask (serve_shard s at moment ask).answer ≡ true }
    ensures store { (s : Store) (at : Stamp) (moment : ℕ) (ask : Ask) → 64 ≤ (place_of ask).0 → (place_of ask).0 < 128 → suits ask ≡ true → lists ask (serve_store s at moment ask).answer ≡ true }
    ensures desk { (jobs : Desk) (ask : Ask) (s : Served Desk) → (place_of ask).0 ≡ 128 → suits ask ≡ true → serve_desk jobs ask ≡ Some s → lists ask s.answer ≡ true }
    ensures roster { (r : Roster) (ask : Ask) → (place_of ask).0 ≡ 129 → suits ask ≡ true → lists ask (serve_roster r ask).answer ≡ true }
    ensures fit { (s : Shard) → CountsHold s → len s.rows ≤ 2 ^ 62 → CountsFit s }
{}
