//! Cells and passes.
ghost use Rattle.std.specs.Prelude.{◌≡◌, List, [], IfOk, IsOkAnd, OnErr};
ghost use Rattle.crossbeam_queue.specs.Fifo.{Held as HeldAt};
ghost use Rattle.crossbeam_queue.specs.Passes.{ruled_capacity};

use crate::holding::{Held, HeldFrom};
use crate::logs::{Item, Logged};
use crate::rule::{Close, JoinIn, OneLog, Take};
use crate::steps::{fill, give_out};
use crate::views::View;
use cfs_ids::NoMemory;
use crossbeam_queue::RuledArrayQueue;
use std::alloc::Global;
use std::marker::Brand;
use std::sync::Wait;

/// A shared value, or the place that it was taken from. Threads share the cell by reference, each with a pass of its
/// own.
#[derive(Drop)]
pub struct Cell<T: Logged> {
    pub(crate) queue: RuledArrayQueue<T, View<T, T::Entry>, OneLog>,
    ghost one: { ruled_capacity queue ≡ 1 },
}

/// A thread's part in a cell: what it has seen and what it has made. It has no bytes, and contracts read it by `knows`.
#[derive(Drop)]
pub struct Pass<T: Logged> {
    pub(crate) seat: crossbeam_queue::Pass<T, View<T, T::Entry>>,
}

/// The cell was empty at a moment of the call.
#[derive(Clone, Copy, Debug, PartialEq, Eq)]
pub struct Taken;

impl<T: Logged> Cell<T> {
    ghost use Rattle.cfs_place.specs.Logs.{StartsWith};
    ghost use Rattle.cfs_place.specs.Views.{begun, took, gave_out, newcomer, joined, HasFixed, IsNew};
    ghost use Rattle.cfs_place.specs.Rule.{IsOut, IsWhole};
    ghost use Rattle.cfs_place.specs.Passes.{knows, IsPassOf, IsFirstOf, HoldsNothing};

    /// Makes a cell with a value whose log is empty, and its first pass, whose number is `by`. The Err is want of
    /// memory; the value is dropped.
    pub fn new<R: Wait>(
        rt: &R,
        alloc: Global,
        value: T,
        by: u32,
    ) -> Result<(Cell<T>, Pass<T>), NoMemory>
        requires { T.log value ≡ [] }
        ensures pass { IfOk result (λ made. IsFirstOf made.0 made.1) }
        ensures begun { IfOk result (λ made. knows made.1 ≡ begun by value) }
    {
        let (queue, mut seat) = RuledArrayQueue::ruled(alloc, 1)?;
        fill::<T, Brand, R>(rt, &queue, &mut seat, value, by);
        Ok((Cell { queue }, Pass { seat }))
    }

    /// Takes the value out of the cell. The Err comes only where some pass in use has taken it: another pass where this one
    /// holds nothing, and one whose number is out where this is the first pass. That this was so at a moment of the call is
    /// the queue's word, and no clause names the moment. The pass is then as before. It may wait.
    pub fn try_take<'a, R: Wait>(&'a self, rt: &R, pass: &mut Pass<T>) -> Result<Held<'a, T>, Taken>
        requires { IsPassOf self.now pass.old }
        ensures pass { IsPassOf self.now pass.new }
        ensures free { IfOk result (λ _. HoldsNothing pass.old) }
        ensures took { IfOk result (λ held. knows pass.new ≡ took T.log (knows pass.old) held.value) }
        ensures later { IfOk result (λ held. StartsWith (T.log held.value) (knows pass.old).seen) }
        ensures fixed { IfOk result (λ held. HasFixed T.fixed (knows pass.old) held.value) }
        ensures cell { IfOk result (λ held. held.cell.now ≡ self.now) }
        ensures same { OnErr result (knows pass.new ≡ knows pass.old) }
        ensures out { OnErr result (HeldAt 0 (λ (items : List T). IsOut T.log T.fixed (knows pass.old))) }
    {
        match self.queue.pop_as::<Take, R>(rt, &mut pass.seat) {
            Some(value) => Ok(HeldFrom { cell: self, value }),
            None => Err(Taken),
        }
    }

    /// Gives out a number that no pass of the cell has had, with a new pass that has seen what the first one had seen.
    /// It takes no memory, and is never an Err.
    pub fn split<R: Wait>(&self, rt: &R, pass: &mut Pass<T>, by: u32) -> Result<Pass<T>, NoMemory>
        requires pass { IsFirstOf self.now pass.old }
        requires number { IsNew by (knows pass.old) }
        ensures pass { IsPassOf self.now pass.new }
        ensures given { knows pass.new ≡ gave_out by (knows pass.old) }
        ensures new { IsOkAnd result (λ new. IsPassOf self.now new × (knows new ≡ newcomer by (knows pass.old))) }
    {
        Ok(give_out::<T, Brand>(self, pass, by))
    }

    /// Takes a pass that holds nothing back into the first one, which keeps the entries that it made.
    pub fn join<R: Wait>(&self, rt: &R, into: &mut Pass<T>, from: Pass<T>)
        requires into { IsFirstOf self.now into.old × HoldsNothing into.old }
        requires from { IsPassOf self.now from × HoldsNothing from }
        ensures pass { IsPassOf self.now into.new }
        ensures joined { knows into.new ≡ joined (knows into.old) (knows from) }
    {
        let Pass { seat } = from;
        self.queue.absorb::<JoinIn>(&mut into.seat, seat);
    }

    /// Ends the cell, once all other passes were joined in, and gives its value. For each number, the log has exactly
    /// the entries that passes of that number made, in their order.
    pub fn close<R: Wait>(self, rt: &R, pass: Pass<T>) -> T
        requires pass { IsFirstOf self pass × HoldsNothing pass }
        requires all { (knows pass).out ≡ [] }
        ensures later { StartsWith (T.log result) (knows pass).seen }
        ensures fixed { HasFixed T.fixed (knows pass) result }
        ensures whole { IsWhole T.log T.Entry.maker (knows pass) result }
    {
        let Pass { mut seat } = pass;
        let last = self.queue.pop_as::<Close, R>(rt, &mut seat);
        match last {
            Some(value) => value,
            None => unreachable!(),
        }
    }
}
