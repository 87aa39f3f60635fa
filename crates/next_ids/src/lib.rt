//! The words of the service: identifiers, names, times, calls and their replies, and the sequential namespace, which is
//! what calls are answered in.
//!
//! It begins as a copy of `cfs_ids`, beside which it stands until all that runs has come over. New here are times with a
//! moment, the limit on the links of a directory, deltas that are kept until they are worked in, the note of a mark, and
//! the Renamer and the collector among the actors.
#![tactic(auto)]

mod attributes;
mod call;
mod counts;
mod deltas;
mod errno;
mod ids;
mod memory;
mod name;
mod note;
mod rows;
mod time;

pub use attributes::{Delta, DirAttr, LINK_MAX, any_cut_folds_alike, any_order_folds_alike, fold};
pub use call::{Call, Reply};
pub use counts::Counts;
pub use deltas::DeltaList;
pub use errno::{Errno, errno_of, errno_text};
pub use ids::{Actor, At, Client, DirId, FileId, JobNo, Kind, Node, PlaceNo, Side, Stamp};
pub use memory::NoMemory;
pub use name::{Name, NameFault};
pub use note::MarkNote;
pub use rows::RowList;
pub use time::{Ts, later, number_of};
