//! Why there is no script.

use next_grammar::Fault;

/// Why there is no script.
#[derive(Clone, Copy, Debug, PartialEq, Eq)]
pub enum ScriptRefusal {
    /// The source failed.
    ReadFault,
    /// The first line that has a fault, counted from 1, and the first of its faults.
    Bad { line: u64, fault: Fault },
    /// No memory was left.
    NoMemory,
}
