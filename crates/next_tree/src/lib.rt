//! The sequential namespace as a program.
#![tactic(auto)]

mod answers;
mod changes;
mod directory;
mod file;
mod moves;
mod namespace;
mod renames;
mod rows;
mod same;
mod walks;

pub use directory::Directory;
pub use file::FileFacts;
pub use namespace::Namespace;
