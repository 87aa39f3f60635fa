//! What is done about a stray.

/// What is asked next about a stray.
#[derive(Clone, Copy)]
pub enum Work {
    Naming,
    OwnerSettling,
    OwedDropping,
    MarkRemoving,
    MarkDropping,
    MarkClearing,
    DebtDropping,
    DebtClearing,
}
