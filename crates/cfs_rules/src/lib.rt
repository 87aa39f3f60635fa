//! The rules of the service, as definitions alone: the tables of the places, worlds, turns and runs, the tree that the
//! places hold, histories, and when a history is legal.
#![tactic(auto)]
