//! What a pass knows.
use std::collections::LinkedList;

/// A view before the cell has its value, of a pass in use, and of a pass that was joined into another.
pub enum Stage {
    Fresh,
    Live,
    Spent,
}

/// What a pass knows of its cell. It stands in contracts alone: no value of it is made.
pub struct View<T, E> {
    pub stage: Stage,
    /// Whether it is the cell's first pass, which keeps the numbers given out.
    pub leads: bool,
    /// The number of the pass.
    pub by: u32,
    /// The longest log that it has seen.
    pub seen: LinkedList<E>,
    /// The entries that it made, in their order.
    pub made: LinkedList<E>,
    /// The value as it was taken, while this pass holds it.
    pub taken: Option<T>,
    /// How often it has taken the value.
    pub takes: u64,
    /// The value that the cell was made with.
    pub start: Option<T>,
    /// The numbers given out and not joined in yet, kept by the first pass.
    pub out: LinkedList<u32>,
    /// The numbers that were joined in, each with the entries that it made, kept by the first pass.
    pub kept: LinkedList<(u32, LinkedList<E>)>,
}
