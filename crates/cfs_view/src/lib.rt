//! All places of a service, and what they tell together.
#![tactic(auto)]

mod checks;
mod counts;
mod laws;
mod opening;
mod place;
mod places;
mod tree;

pub use checks::{attributes_hold, counts_hold};
pub use counts::{Tallied, tally};
pub use laws::rows_lie_with_their_record;
pub use place::Place;
pub use places::{PlaceList, Places};
pub use tree::tree_of;
