//! The rule that a cell's queue keeps, and its kinds of step.
ghost use Rattle.std.specs.Prelude.{◌≡◌, ◌≢◌, ℕ, [], None};
ghost use Rattle.cfs_place.specs.Logs.{StartsWith};
ghost use Rattle.cfs_place.specs.Views.{fresh, spent, begun, took, gave, gave_out, newcomer, joined, HasFixed};
ghost use Rattle.cfs_place.specs.Rule.{Kept, IsOut, IsWhole};

use crate::logs::{Item, Logged};
use crate::views::View;
use crossbeam_queue::protocol::{Join, Lesson, Outcome, Protocol, Split};
use std::marker::{Brand, PhantomData};

/// The queue and the passes are parts of one story.
pub struct OneLog;

impl<T: Logged> Protocol<T, View<T, T::Entry>> for OneLog {
    ghost holds = { Kept T.log T.Entry.maker T.fixed };

    ghost first = { fresh };
}

/// A number of a pass. Each call picks it.
pub trait Numbered {
    ghost number: { ℕ };
}

impl Numbered for Brand {
    ghost number = { 0 };
}

/// The first give, of the value that the cell is made with.
pub struct Begin<N> {
    of: PhantomData<N>,
}

impl<T: Logged, N: Numbered> Outcome<T, View<T, T::Entry>> for Begin<N> {
    ghost then = { λ v x w. w ≡ begun N.number x };
}

impl<T: Logged, N: Numbered> Lesson<T, View<T, T::Entry>> for Begin<N> {
    ghost fact = { λ v items. items ≡ [] };
}

/// A take: the value has the cell's fixed part, and its log begins with all that was seen.
pub struct Take;

impl<T: Logged> Outcome<T, View<T, T::Entry>> for Take {
    ghost then = { λ v x w. (v.taken ≡ None) × (w ≡ took T.log v x) × StartsWith (T.log x) v.seen × HasFixed T.fixed v x };
}

impl<T: Logged> Lesson<T, View<T, T::Entry>> for Take {
    ghost fact = { λ v items. items ≡ [] → IsOut T.log T.fixed v };
}

/// A give of the value that this pass took.
pub struct Give;

impl<T: Logged> Outcome<T, View<T, T::Entry>> for Give {
    ghost then = { λ v x w. w ≡ gave T.log v x };
}

impl<T: Logged> Lesson<T, View<T, T::Entry>> for Give {
    ghost fact = { λ v items. items ≡ [] };
}

/// The last take, once no other pass is out.
pub struct Close;

impl<T: Logged> Outcome<T, View<T, T::Entry>> for Close {
    ghost then = { λ v x w. StartsWith (T.log x) v.seen × HasFixed T.fixed v x × IsWhole T.log T.Entry.maker v x };
}

impl<T: Logged> Lesson<T, View<T, T::Entry>> for Close {
    ghost fact = { λ v items. items ≢ [] };
}

/// A number given out, with a new pass.
pub struct GiveOut<N> {
    of: PhantomData<N>,
}

impl<T, E, N: Numbered> Split<View<T, E>> for GiveOut<N> {
    ghost left = { λ v. gave_out N.number v };

    ghost right = { λ v. newcomer N.number v };
}

/// A pass joined into the first one.
pub struct JoinIn;

impl<T, E> Join<View<T, E>> for JoinIn {
    ghost both = { λ v w. joined v w };

    ghost spent = { spent };
}
