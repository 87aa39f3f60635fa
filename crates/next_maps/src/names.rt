//! An ordered map from names.
ghost use Rattle.std.specs.Prelude.{◌≡◌, List, ℕ, OnOk, OnErr, IfOk, IfErr, IsSome, IsOk, None, ◌^◌, ◌<◌};
ghost use Rattle.std.specs.Option.{option_copied, option_copied_mut, option_map};
ghost use Rattle.std.specs.Borrow.{sem};
ghost use Rattle.std.specs.Ordering.{nat_cmp};
ghost use Rattle.std.specs.Cmp.Lexicographic.{slice_cmp};
ghost use Rattle.std.specs.FinMap as map;
ghost use Rattle.std.specs.Map.Iter.{ShowsInOrder, deref_pair};
ghost use Rattle.next_maps.specs.LentNames.{lends_value};
ghost use Rattle.next_maps.specs.Walks.{entries_after, first_of};

use next_ids::Name;
use std::alloc::Global;
use std::collections::BTreeMap;
use std::collections::btree_map::Iter;
use std::marker::Model;
use std::ops::Bound;

/// An ordered map from names to values.
#[derive(Drop)]
pub struct NameMap<V> {
    tree: BTreeMap<Name, V>,
}

impl<V> Model for NameMap<V> {
    ghost use Rattle.std.specs.Ordering.{nat_cmp};
    ghost use Rattle.std.specs.Cmp.Lexicographic.{slice_cmp};
    ghost use Rattle.std.specs.FinMap as map;
    ghost use Rattle.std.specs.Coded.{coded_ℕ, coded_list};

    ghost Value = { map.FinMap (slice_cmp nat_cmp) V };

    ghost coded = { map.code (coded_list coded_ℕ) V.code };

    ghost view = { λ names. map.from_entries names.tree.entries };
}

impl<V> NameMap<V> {
    /// The empty map.
    pub fn new(alloc: Global) -> Self
        ensures { result ≡ map.empty }
    {
        NameMap {
            tree: BTreeMap::new(alloc),
        }
    }

    /// How many names there are.
    pub fn len(&self) -> usize
        ensures { result ≡ map.len self.now }
    {
        self.tree.len()
    }

    /// The value of the name. None comes exactly where the name isn't there.
    pub fn get(&self, name: &Name) -> Option<&V>
        ensures { option_copied result ≡ map.get self.now name.now }
    {
        self.tree.get(name)
    }

    /// The value of the name, to change in place. None comes exactly where the name isn't there.
    pub fn get_mut(&mut self, name: &Name) -> Option<&mut V>
        ensures* writes_back { sem 𝓛 (lends_value V.row self.entry name.now result) }
        ensures value { option_copied_mut result ≡ map.get self.old name.now }
    {
        self.tree.get_mut(name)
    }

    /// The first entry whose name is above `after`, or the first of all. None comes exactly where there is none.
    pub fn next(&self, after: Option<&Name>) -> Option<(&Name, &V)>
        ensures { option_map (λ entry. (entry.0.now, entry.1.now)) result ≡ first_of (entries_after (slice_cmp nat_cmp) (option_copied after.entry) (map.entries self.now)) }
    {
        let start = match after {
            Some(name) => Bound::Excluded(name),
            None => Bound::Unbounded,
        };
        self.tree.range((start, Bound::Unbounded)).next()
    }

    /// The entries, by rising names.
    pub fn iter(&self) -> Iter<'_, Name, V>
        ensures rest { result ≡ map.entries self.now }
        ensures runs { ShowsInOrder (deref_pair {K = List ℕ} {X = V}) }
        ensures fits { map.len self.now < 2 ^ 63 }
    {
        self.tree.iter()
    }

    /// Sets the value of the name, and answers what stood there. The Err is want of memory for a new name: the map is
    /// as it was, and the pair comes back.
    pub fn set(&mut self, name: Name, value: V) -> Result<Option<V>, (Name, V)>
        ensures ok { OnOk result (self.new ≡ map.insert self.old name value) }
        ensures before { IfOk result (λ before. before ≡ map.get self.old name) }
        ensures err { OnErr result (self.new ≡ self.old) }
        ensures back { IfErr result (λ back. back ≡ (name, value)) }
        ensures there { IsSome (map.get self.old name) → IsOk result }
    {
        match self.tree.insert(name, value) {
            Ok(before) => Ok(before),
            Err(failed) => Err(failed.value),
        }
    }

    /// Takes the name out, and answers what stood there.
    pub fn cut(&mut self, name: &Name) -> Option<V>
        ensures map { self.new ≡ map.remove self.old name.now }
        ensures before { result ≡ map.get self.old name.now }
    {
        self.tree.remove(name)
    }
}
