//! What threads do with a cell whose value is a list of numbers.
ghost use Rattle.std.specs.Prelude.{◌≡◌, [], ◌∷◌};
ghost use Rattle.std.specs.Thread.{IsSync};
ghost use Rattle.cfs_place.specs.Passes.{knows, IsPassOf, IsFirstOf, HoldsNothing};

use cfs_place::numbers::{Number, Numbers, add_number, add_to};
use cfs_place::{Cell, Logged, Pass};
use std::sync::Wait;
use std::test::Fail;
use std::thread;
use std::thread::Threads;

// Adds the numbers below `count`, and tells whether there was memory for each.
fn add_all<R: Wait>(
    rt: &R,
    cell: &Cell<Numbers>,
    mut pass: Pass<Numbers>,
    by: u32,
    count: u64,
) -> (Pass<Numbers>, bool)
    requires pass { IsPassOf cell.now pass × HoldsNothing pass }
    requires by { (knows pass).by ≡ by }
    ensures pass { IsPassOf cell.now result.0 × HoldsNothing result.0 }
    ensures by { (knows result.0).by ≡ by }
{
    let mut all = true;
    for value in 0..count {
        let added = add_number(rt, cell, &mut pass, by, value).is_ok();
        all = all && added;
    }
    (pass, all)
}

// Two threads add the numbers below `count`, each through a pass of its own.
fn add_by_two<R: Threads + Wait + Sync>(
    rt: &R,
    cell: &Cell<Numbers>,
    first: (Pass<Numbers>, u32),
    second: (Pass<Numbers>, u32),
    count: u64,
) -> ((Pass<Numbers>, bool), (Pass<Numbers>, bool))
    requires passes { IsPassOf cell.now first.0 × HoldsNothing first.0 × IsPassOf cell.now second.0 × HoldsNothing second.0 }
    requires by { ((knows first.0).by ≡ first.1) × ((knows second.0).by ≡ second.1) }
    ensures first { IsPassOf cell.now result.0.0 × HoldsNothing result.0.0 × ((knows result.0.0).by ≡ first.1) }
    ensures second { IsPassOf cell.now result.1.0 × HoldsNothing result.1.0 × ((knows result.1.0).by ≡ second.1) }
{
    let (first, first_by) = first;
    let (second, second_by) = second;
    thread::join(
        rt,
        move ||
            requires { IsPassOf cell.now first × HoldsNothing first × ((knows first).by ≡ first_by) }
            ensures { IsPassOf cell.entry.now result.0 × HoldsNothing result.0 × ((knows result.0).by ≡ first_by) }
        { add_all(rt, cell, first, first_by, count) },
        move ||
            requires { IsPassOf cell.now second × HoldsNothing second × ((knows second).by ≡ second_by) }
            ensures { IsPassOf cell.entry.now result.0 × HoldsNothing result.0 × ((knows result.0).by ≡ second_by) }
        { add_all(rt, cell, second, second_by, count) },
    )
}

// Four threads add the numbers below `count`, as 2, 3, 4 and 5, and their passes are joined in.
fn add_by_four<R: Threads + Wait + Sync>(
    rt: &R,
    cell: &Cell<Numbers>,
    into: &mut Pass<Numbers>,
    passes: (Pass<Numbers>, Pass<Numbers>, Pass<Numbers>, Pass<Numbers>),
    count: u64,
) -> bool
    requires into { IsFirstOf cell.now into.old × HoldsNothing into.old }
    requires out { (knows into.old).out ≡ 5 ∷ 4 ∷ 3 ∷ 2 ∷ [] }
    requires two { IsPassOf cell.now passes.0 × HoldsNothing passes.0 × ((knows passes.0).by ≡ 2) }
    requires three { IsPassOf cell.now passes.1 × HoldsNothing passes.1 × ((knows passes.1).by ≡ 3) }
    requires four { IsPassOf cell.now passes.2 × HoldsNothing passes.2 × ((knows passes.2).by ≡ 4) }
    requires five { IsPassOf cell.now passes.3 × HoldsNothing passes.3 × ((knows passes.3).by ≡ 5) }
    ensures into { IsFirstOf cell.now into.new × HoldsNothing into.new }
    ensures out { (knows into.new).out ≡ [] }
{
    let (two, three, four, five) = passes;
    let ((two, three), (four, five)) = thread::join(
        rt,
        move ||
            requires { IsSync R.row × IsPassOf cell.now two × HoldsNothing two × ((knows two).by ≡ 2) × IsPassOf cell.now three × HoldsNothing three × ((knows three).by ≡ 3) }
            ensures { IsPassOf cell.entry.now result.0.0 × HoldsNothing result.0.0 × ((knows result.0.0).by ≡ 2) × IsPassOf cell.entry.now result.1.0 × HoldsNothing result.1.0 × ((knows result.1.0).by ≡ 3) }
        { add_by_two(rt, cell, (two, 2), (three, 3), count) },
        move ||
            requires { IsSync R.row × IsPassOf cell.now four × HoldsNothing four × ((knows four).by ≡ 4) × IsPassOf cell.now five × HoldsNothing five × ((knows five).by ≡ 5) }
            ensures { IsPassOf cell.entry.now result.0.0 × HoldsNothing result.0.0 × ((knows result.0.0).by ≡ 4) × IsPassOf cell.entry.now result.1.0 × HoldsNothing result.1.0 × ((knows result.1.0).by ≡ 5) }
        { add_by_two(rt, cell, (four, 4), (five, 5), count) },
    );
    let all = two.1 && three.1 && four.1 && five.1;
    cell.join(rt, into, two.0);
    cell.join(rt, into, three.0);
    cell.join(rt, into, four.0);
    cell.join(rt, into, five.0);
    all
}

// How many numbers a maker has in the list, where they are 0, 1, 2 and so on, in this order.
fn counts_up(list: &[Number], by: u32) -> Option<u64> {
    let mut next = 0u64;
    for number in list {
        if number.by == by {
            if number.value != next {
                return None;
            }
            next = next.checked_add(1)?;
        }
    }
    Some(next)
}

#[test]
fn a_value_is_taken_and_given_back(rt: HostRuntime) -> Result<(), Fail> {
    let list = Numbers::new(rt.alloc(), 7);
    let (cell, mut one) = Cell::new(&rt, rt.alloc(), list, 1)?;
    let mut held = cell.try_take(&rt, &mut one)?;
    let is_new = held.value().items.is_empty();
    add_to(&rt, held, &mut one, 1, 20)?;
    let list = cell.close(&rt, one);
    assert!(rt; is_new && (list.title, list.count(), list.last()) == (7, 1, 1));
    assert!(rt; list.items.as_slice() == [Number { by: 1, value: 20 }].as_slice());
    Ok(())
}

#[test]
fn four_threads_add_a_thousand_each(rt: HostRuntime) -> Result<(), Fail> {
    let list = Numbers::new(rt.alloc(), 7);
    let (cell, mut one) = Cell::new(&rt, rt.alloc(), list, 1)?;
    let passes = (
        cell.split(&rt, &mut one, 2)?,
        cell.split(&rt, &mut one, 3)?,
        cell.split(&rt, &mut one, 4)?,
        cell.split(&rt, &mut one, 5)?,
    );
    let all = add_by_four(&rt, &cell, &mut one, passes, 1000);
    assert!(rt; all);
    let list = cell.close(&rt, one);
    assert_eq!(rt; list.count(), 4000);
    for by in 2..6 {
        assert_eq!(rt; counts_up(list.items.as_slice(), by), Some(1000));
    }
    Ok(())
}
