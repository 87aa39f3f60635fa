//! The laws of stages: what each effect of a step keeps of what the places hold, and what the tree is after it.
#![tactic(auto)]
