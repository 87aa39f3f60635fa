//! What is left of the logs.

/// How many entries are left of each log, the oldest ones, by place number. A place that the service hasn't has none.
#[derive(Drop)]
pub struct Left {
    pub counts: Vec<usize>,
}
