//! The value while a pass holds it.
ghost use Rattle.std.specs.Prelude.{◌≡◌, IsSome};
ghost use Rattle.std.specs.Borrow.{sem, Lends};
ghost use Rattle.cfs_place.specs.contracts.holding.HeldFrom.{the_row};
ghost use Rattle.cfs_place.specs.Lent.{with_value};
ghost use Rattle.cfs_place.specs.Logs.{GrowsBy};
ghost use Rattle.cfs_place.specs.Views.{gave, HasFixed};
ghost use Rattle.cfs_place.specs.Passes.{knows, IsPassOf};

use crate::cells::{Cell, Pass};
use crate::logs::{Item, Logged};
use crate::rule::Give;
use std::sync::Wait;

/// A value out of the cell that it belongs to. It can't be dropped.
pub struct HeldFrom<C, T> {
    pub(crate) cell: C,
    pub(crate) value: T,
}

/// The value, out of its cell. It is spent by `give`.
pub type Held<'a, T> = HeldFrom<&'a Cell<T>, T>;

impl<C, T> HeldFrom<C, T> {
    /// The value, to change in place.
    pub fn value(&mut self) -> &mut T
        ensures value { result.now ≡ self.old.value }
        ensures* writes_back { sem 𝓛 (Lends (the_row C.row T.row) T.row self.entry result (with_value self.old)) }
    {
        &mut self.value
    }
}

impl<'a, T: Logged> HeldFrom<&'a Cell<T>, T> {
    /// Gives the value back to its cell, by the pass that took it. The entries that were added to its log are that
    /// pass's. It is never refused. It may wait.
    pub fn give<R: Wait>(self, rt: &R, pass: &mut Pass<T>)
        requires pass { IsPassOf self.cell.now pass.old }
        requires holds { IsSome (knows pass.old).taken }
        requires grows { GrowsBy T.Entry.maker (knows pass.old).by (knows pass.old).seen (T.log self.value) }
        requires fixed { HasFixed T.fixed (knows pass.old) self.value }
        ensures pass { IsPassOf self.entry.cell.now pass.new }
        ensures gave { knows pass.new ≡ gave T.log (knows pass.old) self.entry.value }
    {
        let HeldFrom { cell, value } = self;
        let given = cell.queue.push_as::<Give, R>(rt, &mut pass.seat, value);
        match given {
            Ok(()) => {}
            Err(_) => unreachable!(),
        }
    }
}
