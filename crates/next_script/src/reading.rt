//! A script that is being read.

use next_setup::Script;

// The script of the lines so far, how many commands they have, how many of these list, and how many turns there are.
#[derive(Debug, Drop)]
pub struct Reading {
    pub script: Script,
    pub commands: usize,
    pub lists: usize,
    pub turns: u64,
}
