//! Ordered maps from numbers and from names.
#![tactic(auto)]

mod names;
mod nested;
mod nodes;
mod numbers;

pub use names::NameMap;
pub use nodes::NodeSet;
pub use numbers::NumberMap;
