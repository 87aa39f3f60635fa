//! The rules of the service: the tables of the places, what the actors do, worlds, turns and runs, the tree that the places
//! hold, histories, when a history is legal, and what is promised of every run.
//!
//! The crate has definitions, and a few lemmas about them. It has the rules of all calls and all actors, and nothing that
//! runs stands on it yet: what runs stands on `cfs_rules`, beside which it stands until all has come over.
#![tactic(auto)]
