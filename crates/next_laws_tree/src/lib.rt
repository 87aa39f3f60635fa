//! The law of one tree: where the namespace that the places hold is whole, live rows form one tree.
#![tactic(auto)]

ghost use Rattle.std.specs.Prelude.{◌≡◌};
ghost use Rattle.next_ids.specs.Namespace.{IsWhole};
ghost use Rattle.next_rules.specs.Facts.{OneTree};
ghost use Rattle.next_rules.specs.Trees.{tree};
ghost use Rattle.next_rules.specs.Worlds.{Service};
ghost use Rattle.next_laws_tree.specs.Housed.{IsHoused};

/// No live row names the root, no directory has two live rows, each directory in which a row lies is the root or named by
/// a live row, and from each such directory the way upward ends at the root: this holds wherever the namespace that the
/// places hold is whole, and all rows lie in directories of it.
pub fn a_whole_tree_is_one_tree()
    ensures { (v : Service) → IsHoused v.shard → IsWhole (tree v) → OneTree v.shard }
{}
