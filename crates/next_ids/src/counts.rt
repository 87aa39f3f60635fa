//! How many places there are.

/// How many shards and stores a service has: 1 to 64 of each. It has one desk and one roster.
#[derive(Clone, Copy, Debug, PartialEq, Eq)]
pub struct Counts {
    pub shards: u32,
    pub stores: u32,
}
