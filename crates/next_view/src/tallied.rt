//! What is left to do.

/// How much is left to do: nodes whose owner hasn't settled them, debts, marks, and what stopped or ended clients left:
/// each owned record that no live row names, each debt and each mark of such a client.
#[derive(Clone, Copy, Debug, PartialEq, Eq)]
pub struct Tallied {
    pub owed: u64,
    pub debts: u64,
    pub marks: u64,
    pub strays: u64,
}
