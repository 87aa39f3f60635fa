//! The words of the service: identifiers, names, times, calls and their replies.
#![tactic(auto)]

mod attributes;
mod call;
mod errno;
mod ids;
mod memory;
mod name;
mod rows;
mod time;

pub use attributes::{Delta, DirAttr, any_cut_folds_alike, any_order_folds_alike, fold};
pub use call::{Call, Reply};
pub use errno::{Errno, errno_of, errno_text};
pub use ids::{Actor, At, Client, DirId, FileId, JobNo, Kind, Node, PlaceNo, Side, Stamp};
pub use memory::NoMemory;
pub use name::{Name, NameFault};
pub use rows::RowList;
pub use time::{Ts, later, number_of};
