//! All places of a service.
#![tactic(auto)]

mod opening;
mod place;
mod places;

pub use place::Place;
pub use places::{PlaceList, Places};
