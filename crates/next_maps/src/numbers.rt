//! An ordered map from numbers.
ghost use Rattle.std.specs.Prelude.{◌≡◌, ℕ, OnOk, OnErr, IfOk, IfErr, IsSome, IsOk, None, ◌^◌, ◌<◌};
ghost use Rattle.std.specs.Option.{option_copied, option_copied_mut, option_map};
ghost use Rattle.std.specs.Borrow.{sem};
ghost use Rattle.std.specs.Ordering.{nat_cmp};
ghost use Rattle.std.specs.FinMap as map;
ghost use Rattle.std.specs.Map.Iter.{ShowsInOrder, deref_pair};
ghost use Rattle.next_maps.specs.Lent.{lends_value};
ghost use Rattle.next_maps.specs.Walks.{entries_after, first_of};

use std::alloc::Global;
use std::collections::BTreeMap;
use std::collections::btree_map::Iter;
use std::marker::Model;
use std::ops::Bound;

/// An ordered map from numbers to values.
#[derive(Drop)]
pub struct NumberMap<V> {
    tree: BTreeMap<u64, V>,
}

impl<V> Model for NumberMap<V> {
    ghost use Rattle.std.specs.Ordering.{nat_cmp};
    ghost use Rattle.std.specs.FinMap as map;
    ghost use Rattle.std.specs.Coded.{coded_ℕ};

    ghost Value = { map.FinMap nat_cmp V };

    ghost coded = { map.code coded_ℕ V.code };

    ghost view = { λ numbers. map.from_entries numbers.tree.entries };
}

impl<V> NumberMap<V> {
    /// The empty map.
    pub fn new(alloc: Global) -> Self
        ensures { result ≡ map.empty }
    {
        NumberMap {
            tree: BTreeMap::new(alloc),
        }
    }

    /// How many keys there are.
    pub fn len(&self) -> usize
        ensures { result ≡ map.len self.now }
    {
        self.tree.len()
    }

    /// The value of the key. None comes exactly where the key isn't there.
    pub fn get(&self, key: u64) -> Option<&V>
        ensures { option_copied result ≡ map.get self.now key }
    {
        self.tree.get(&key)
    }

    /// The value of the key, to change in place. None comes exactly where the key isn't there.
    pub fn get_mut(&mut self, key: u64) -> Option<&mut V>
        ensures* writes_back { sem 𝓛 (lends_value V.row self.entry key result) }
        ensures value { option_copied_mut result ≡ map.get self.old key }
    {
        self.tree.get_mut(&key)
    }

    /// The first entry whose key is above `after`, or the first of all. None comes exactly where there is none.
    pub fn next(&self, after: Option<u64>) -> Option<(u64, &V)>
        ensures { option_map (λ entry. (entry.0, entry.1.now)) result ≡ first_of (entries_after nat_cmp after (map.entries self.now)) }
    {
        let start = match after {
            Some(key) => Bound::Excluded(key),
            None => Bound::Unbounded,
        };
        match self.tree.range((start, Bound::Unbounded)).next() {
            Some((key, value)) => Some((*key, value)),
            None => None,
        }
    }

    /// The entries, by rising keys.
    pub fn iter(&self) -> Iter<'_, u64, V>
        ensures rest { result ≡ map.entries self.now }
        ensures runs { ShowsInOrder (deref_pair {K = ℕ} {X = V}) }
        ensures fits { map.len self.now < 2 ^ 63 }
    {
        self.tree.iter()
    }

    /// Sets the value of the key, and answers what stood there. The Err is want of memory for a new key: the map is as
    /// it was, and the pair comes back.
    pub fn set(&mut self, key: u64, value: V) -> Result<Option<V>, (u64, V)>
        ensures ok { OnOk result (self.new ≡ map.insert self.old key value) }
        ensures before { IfOk result (λ before. before ≡ map.get self.old key) }
        ensures err { OnErr result (self.new ≡ self.old) }
        ensures back { IfErr result (λ back. back ≡ (key, value)) }
        ensures there { IsSome (map.get self.old key) → IsOk result }
    {
        match self.tree.insert(key, value) {
            Ok(before) => Ok(before),
            Err(failed) => Err(failed.value),
        }
    }

    /// Takes the key out, and answers what stood there.
    pub fn cut(&mut self, key: u64) -> Option<V>
        ensures map { self.new ≡ map.remove self.old key }
        ensures before { result ≡ map.get self.old key }
    {
        self.tree.remove(&key)
    }
}
