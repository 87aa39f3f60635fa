//! Maps of names in a map of numbers.
ghost use Rattle.std.specs.Prelude.{◌≡◌, OnOk, OnErr, IfOk, IfErr, IsSome, IsOk, None};
ghost use Rattle.std.specs.FinMap as map;
ghost use Rattle.next_maps.specs.Nested.{names_of, with_name, without_name};

use crate::names::NameMap;
use crate::numbers::NumberMap;
use next_ids::Name;
use std::alloc::Global;

impl<V: Drop> NumberMap<NameMap<V>> {
    /// Sets the value of the name at the key, in place, and answers what stood there. The Err is want of memory for a
    /// new name or a new key: the map is as it was, and the pair comes back.
    pub fn set_name(
        &mut self,
        alloc: Global,
        key: u64,
        name: Name,
        value: V,
    ) -> Result<Option<V>, (Name, V)>
        ensures ok { OnOk result (self.new ≡ with_name self.old key name value) }
        ensures before { IfOk result (λ before. before ≡ map.get (names_of (map.get self.old key)) name) }
        ensures err { OnErr result (self.new ≡ self.old) }
        ensures back { IfErr result (λ back. back ≡ (name, value)) }
        ensures there { IsSome (map.get (names_of (map.get self.old key)) name) → IsOk result }
    {
        match self.get_mut(key) {
            Some(names) => names.set(name, value),
            None => self.set_first(alloc, key, name, value),
        }
    }

    /// Takes the name out at the key, and answers what stood there. A key that has no name left goes too.
    pub fn cut_name(&mut self, key: u64, name: &Name) -> Option<V>
        ensures map { self.new ≡ without_name self.old key name.now }
        ensures before { result ≡ map.get (names_of (map.get self.old key)) name.now }
    {
        let names = self.get_mut(key)?;
        let before = names.cut(name);
        if names.len() == 0 {
            let _ = self.cut(key);
        }
        before
    }

    // `set_name` at a key that isn't there.
    fn set_first(
        &mut self,
        alloc: Global,
        key: u64,
        name: Name,
        value: V,
    ) -> Result<Option<V>, (Name, V)>
        requires { map.get self.old key ≡ None }
        ensures ok { OnOk result (self.new ≡ with_name self.old key name value) }
        ensures before { IfOk result (λ before. before ≡ None) }
        ensures err { OnErr result (self.new ≡ self.old) }
        ensures back { IfErr result (λ back. back ≡ (name, value)) }
    {
        let Ok(_) = self.set(key, NameMap::new(alloc)) else {
            return Err((name, value));
        };
        match self.get_mut(key).unwrap().set(name, value) {
            Ok(before) => Ok(before),
            Err(back) => {
                let _ = self.cut(key);
                Err(back)
            }
        }
    }
}
