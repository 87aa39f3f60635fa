//! How calls end, and what their steps are told by: what the machines of all calls share.
#![tactic(auto)]

mod ends;
mod steps;

pub use ends::{answered, dir_stat, moved, replied, told};
pub use steps::{is_stamp, stamp_of, ts_of};
