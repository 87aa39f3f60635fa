//! The attributes of a directory, and how they change.
ghost use Rattle.std.specs.Prelude.{◌≡◌, ◌<◌, ◌^◌, ◌++◌, pos, ◌+ℤ◌, ◌≤ℤ◌, List};
ghost use Rattle.std.specs.Int.RustNames.{unsigned_abs};
ghost use Rattle.std.specs.List.Sorted.{IsPermutation};
ghost use Rattle.next_ids.specs.Attributes.{folded, CanFold};
ghost use Rattle.next_ids.specs.declared.attributes.DirAttr.{DirAttr};
ghost use Rattle.next_ids.specs.declared.attributes.Delta.{Delta};

use crate::time::{Ts, later};

/// The most links that a directory has: its own two, and one for each directory in it.
pub const LINK_MAX: u64 = 32000;

/// A directory's counts of rows and of rows that name a directory, and its time.
#[derive(Clone, Copy, Debug, PartialEq, Eq)]
pub struct DirAttr {
    pub children: u64,
    pub subdirs: u64,
    pub time: Ts,
}

/// A change of a directory's attributes: what it adds to each count, and its time.
#[derive(Clone, Copy, Debug, PartialEq, Eq)]
pub struct Delta {
    pub children: i32,
    pub subdirs: i32,
    pub time: Ts,
}

// The count with the change added.
fn changed(count: u64, change: i64) -> u64
    requires fits { count < 2 ^ 63 }
    requires low { pos 0 ≤ℤ (pos count +ℤ change) }
    requires high { (pos count +ℤ change) ≤ℤ pos (2 ^ 62) }
    ensures { result ≡ unsigned_abs (pos count +ℤ change) }
{
    (count as i64 + change) as u64
}

/// The attributes after the deltas: each count with theirs added, and the greatest of all times. It needs fewer than
/// 2^31 deltas, and counts that come out at 0 to 2^62. It takes no memory.
pub fn fold(base: DirAttr, deltas: &[Delta]) -> DirAttr
    requires { CanFold base deltas.now }
    ensures { result ≡ folded base deltas.now }
{
    let mut children: i64 = 0;
    let mut subdirs: i64 = 0;
    let mut time = base.time;
    for delta in deltas {
        children += i64::from(delta.children);
        subdirs += i64::from(delta.subdirs);
        time = later(time, delta.time);
    }
    DirAttr {
        children: changed(base.children, children),
        subdirs: changed(base.subdirs, subdirs),
        time,
    }
}

/// A law: deltas in another order give the same attributes, and may be folded where these may.
pub fn any_order_folds_alike()
    ensures same { (base : DirAttr) (deltas others : List Delta) → IsPermutation deltas others → folded base others ≡ folded base deltas }
    ensures may { (base : DirAttr) (deltas others : List Delta) → IsPermutation deltas others → CanFold base deltas → CanFold base others }
{}

/// A law: folding a front and then the rest gives what folding all gives, where both the front and all may be folded;
/// the rest may then be folded too.
pub fn any_cut_folds_alike()
    ensures same { (base : DirAttr) (front rest : List Delta) → CanFold base front → CanFold base (front ++ rest) → folded (folded base front) rest ≡ folded base (front ++ rest) }
    ensures may { (base : DirAttr) (front rest : List Delta) → CanFold base front → CanFold base (front ++ rest) → CanFold (folded base front) rest }
{}
