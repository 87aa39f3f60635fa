//! Cells and passes: a shared value whose log each thread knows its part of.
//!
//! A `Cell` has one value, which threads share by a reference to the cell. Each thread has a `Pass` of the cell. It
//! takes the value with `try_take`, changes it in place, and spends the `Held` that it got with `give`. A value is
//! `Logged`: it has a log, to which entries are added at the end, and a fixed part, which no step changes. An entry is
//! an `Item` and knows the number of its maker. `numbers` is a caller, as it is written.
//!
//! A pass is no data at run time. In contracts it is a `View` (`knows`): its number, the longest log that it has seen,
//! the entries that it made, whether it holds the value, and the count of its takes. The pass that `new` gives is the
//! first one. It keeps the numbers that are out, and for each that was joined in the entries that it made.
//!
//! # What is promised
//! - `try_take` hands out the value with the fixed part that the cell was made with. Its log begins with all that the
//!   pass has seen, and is what the pass has seen from then on. The take raises the pass's count of takes by one, and
//!   nothing else does.
//! - `Taken` comes only where the cell was empty at a moment of the call: some pass had taken the value then, and
//!   another one where this one holds nothing. So a first pass that holds nothing, with no number out, never meets it.
//!   The pass is as before, its count of takes too.
//! - `give` adds the new entries to the log and to the pass's own list. It is never refused.
//! - `split` gives out a new pass under a new number, and takes no memory. `join` takes a pass back, and the first
//!   pass keeps its list.
//! - `close`, once every pass was joined in, gives the value. For each number its log has exactly the entries that the
//!   passes of that number made, each once, in their order, and none for a number that was never given out.
//! - Only `new` may want memory; no clause says when it does.
//!
//! Each of these calls but `Held::value` and `close` is one step on a queue of one place, under one rule. Either the
//! queue holds the value and no pass does, or it is empty and exactly one pass does. The log of each pass is a
//! beginning of the value's, and for each number the value's entries are the own list of the pass that has it, or the
//! list that the first pass keeps for it.
//!
//! # On which conditions
//! - `new` gets a value whose log is empty.
//! - A pass is used on its own cell (`IsPassOf`), and a value is given back with the pass that took it.
//! - `give`: the log begins with the log as taken, each entry added has the pass's number, and the fixed part is as
//!   taken. A `Held` can't be dropped.
//! - `split`, `join` and `close` use the first pass. `split` gets a number that no pass of the cell has had. No pass in
//!   `join` and `close` holds the value, and at `close` no number is out.
//!
//! # What is not
//! `try_take`, `give` and whatever stands on them may wait, and promise what they promise if they return. Nothing is
//! said of how long, of fairness, or that a thread that tries again will find the value. Nothing is said of order in
//! time, beyond each pass's own and the log's: two passes that never met the same entries have no order. A pass that is
//! dropped is never joined in, and its cell can't be closed.
#![tactic(auto)]

mod cells;
mod holding;
mod logs;
pub mod numbers;
mod rule;
mod steps;
mod views;

pub use cells::{Cell, Pass, Taken};
pub use holding::{Held, HeldFrom};
pub use logs::{Item, Logged};
