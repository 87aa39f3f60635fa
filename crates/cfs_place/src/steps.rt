//! The two steps that name a number: the first give and a number given out.
ghost use Rattle.std.specs.Prelude.{◌≡◌, []};
ghost use Rattle.crossbeam_queue.specs.Passes.{view, ruled_capacity, IsPassOf as IsPassOfQueue};
ghost use Rattle.cfs_place.specs.Views.{fresh, begun, gave_out, newcomer, IsNew};
ghost use Rattle.cfs_place.specs.Passes.{knows, IsPassOf, IsFirstOf};

use crate::cells::{Cell, Pass};
use crate::logs::Logged;
use crate::rule::{Begin, GiveOut, Numbered, OneLog};
use crate::views::View;
use crossbeam_queue::RuledArrayQueue;
use std::sync::Wait;

// The first give, of the value that the cell is made with.
pub(crate) fn fill<T: Logged, N: Numbered, R: Wait>(
    rt: &R,
    queue: &RuledArrayQueue<T, View<T, T::Entry>, OneLog>,
    seat: &mut crossbeam_queue::Pass<T, View<T, T::Entry>>,
    value: T,
    by: u32,
)
    requires number { by ≡ N.number }
    requires queue { (ruled_capacity queue.now ≡ 1) × IsPassOfQueue queue.now seat.old }
    requires fresh { view seat.old ≡ fresh }
    requires empty { T.log value ≡ [] }
    ensures queue { IsPassOfQueue queue.now seat.new }
    ensures begun { view seat.new ≡ begun by value }
{
    let filled = queue.push_as::<Begin<N>, R>(rt, seat, value);
    match filled {
        Ok(()) => {}
        Err(_) => unreachable!(),
    }
}

// A number given out, with a new pass.
pub(crate) fn give_out<T: Logged, N: Numbered>(
    cell: &Cell<T>,
    pass: &mut Pass<T>,
    by: u32,
) -> Pass<T>
    requires picked { by ≡ N.number }
    requires pass { IsFirstOf cell.now pass.old }
    requires number { IsNew by (knows pass.old) }
    ensures pass { IsPassOf cell.now pass.new × (knows pass.new ≡ gave_out by (knows pass.old)) }
    ensures new { IsPassOf cell.now result × (knows result ≡ newcomer by (knows pass.old)) }
{
    let seat = cell.queue.another::<GiveOut<N>>(&mut pass.seat);
    Pass { seat }
}
