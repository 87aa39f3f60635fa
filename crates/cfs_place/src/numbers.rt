//! A list of numbers in a cell: a caller, as it is written.
ghost use Rattle.std.specs.Prelude.{◌≡◌, ℕ, List, [], ◌∷◌, ◌++◌, ◌+◌, length, IsSome, OnOk, OnErr};
ghost use Rattle.cfs_place.specs.Logs.{GrowsBy};
ghost use Rattle.cfs_place.specs.Views.{HasFixed};
ghost use Rattle.cfs_place.specs.Numbers.{number};
ghost use Rattle.cfs_place.specs.Passes.{knows, IsPassOf, HoldsNothing};

use crate::cells::{Cell, Pass, Taken};
use crate::holding::Held;
use crate::logs::{Item, Logged};
use cfs_ids::NoMemory;
use std::alloc::Global;
use std::sync::Wait;
use std::thread;

/// A number, with the number of its maker.
#[derive(Clone, Copy, Debug, PartialEq, Eq)]
pub struct Number {
    pub by: u32,
    pub value: u64,
}

impl Item for Number {
    ghost maker = { λ n. n.by };

    fn by(&self) -> u32 {
        self.by
    }
}

/// A list of numbers, which is its own log. Its title is its fixed part.
#[derive(Drop)]
pub struct Numbers {
    pub title: u64,
    pub items: Vec<Number>,
}

impl Logged for Numbers {
    type Entry = Number;

    ghost log = { λ n. n.items.items };

    ghost Fixed = { ℕ };

    ghost fixed = { λ n. n.title };

    ghost latest = { λ n. length n.items.items };

    fn count(&self) -> usize {
        self.items.len()
    }

    /// How many numbers there are: each is one step.
    fn last(&self) -> u64 {
        self.items.len() as u64
    }
}

impl Numbers {
    /// The empty list.
    pub fn new(alloc: Global, title: u64) -> Numbers
        ensures title { result.title ≡ title }
        ensures items { result.items.items ≡ [] }
    {
        Numbers {
            title,
            items: Vec::new(alloc),
        }
    }

    /// Adds a number at the end. The Err is want of memory, and the list is as before.
    pub fn add(&mut self, by: u32, value: u64) -> Result<(), NoMemory>
        ensures ok { OnOk result (self.new.items.items ≡ self.old.items.items ++ number by value ∷ []) }
        ensures err { OnErr result (self.new.items.items ≡ self.old.items.items) }
        ensures title { self.new.title ≡ self.old.title }
    {
        self.items.push(Number { by, value })?;
        Ok(())
    }
}

/// Takes the list as soon as it is there, once, adds a number under the pass's own number, and gives the list back. The
/// Err is want of memory; nothing was added then, and the list was taken all the same. It may wait.
pub fn add_number<R: Wait>(
    rt: &R,
    cell: &Cell<Numbers>,
    pass: &mut Pass<Numbers>,
    by: u32,
    value: u64,
) -> Result<(), NoMemory>
    requires pass { IsPassOf cell.now pass.old × HoldsNothing pass.old }
    requires by { (knows pass.old).by ≡ by }
    ensures pass { IsPassOf cell.now pass.new × HoldsNothing pass.new }
    ensures made { OnOk result ((knows pass.new).made ≡ (knows pass.old).made ++ number by value ∷ []) }
    ensures none { OnErr result ((knows pass.new).made ≡ (knows pass.old).made) }
    ensures by { (knows pass.new).by ≡ by }
    ensures takes { (knows pass.new).takes ≡ (knows pass.old).takes + 1 }
    ensures book { ((knows pass.new).leads ≡ (knows pass.old).leads) × ((knows pass.new).out ≡ (knows pass.old).out) }
{
    for _ in rt.forever() {
        match cell.try_take(rt, pass) {
            Ok(held) => return add_to(rt, held, pass, by, value),
            Err(Taken) => thread::yield_now(),
        }
    }
    unreachable!()
}

/// Adds a number to the list that the pass has taken, and gives the list back. It doesn't take it again.
pub fn add_to<R: Wait>(
    rt: &R,
    mut held: Held<'_, Numbers>,
    pass: &mut Pass<Numbers>,
    by: u32,
    value: u64,
) -> Result<(), NoMemory>
    requires pass { IsPassOf held.cell.now pass.old }
    requires by { (knows pass.old).by ≡ by }
    requires holds { IsSome (knows pass.old).taken }
    requires seen { (knows pass.old).seen ≡ held.value.items.items }
    requires fixed { HasFixed (λ (n : Numbers). n.title) (knows pass.old) held.value }
    ensures pass { IsPassOf held.entry.cell.now pass.new × HoldsNothing pass.new }
    ensures made { OnOk result ((knows pass.new).made ≡ (knows pass.old).made ++ number by value ∷ []) }
    ensures none { OnErr result ((knows pass.new).made ≡ (knows pass.old).made) }
    ensures by { (knows pass.new).by ≡ by }
    ensures takes { (knows pass.new).takes ≡ (knows pass.old).takes }
    ensures book { ((knows pass.new).leads ≡ (knows pass.old).leads) × ((knows pass.new).out ≡ (knows pass.old).out) }
{
    let added = held.value().add(by, value);
    held.give(rt, pass);
    added
}
