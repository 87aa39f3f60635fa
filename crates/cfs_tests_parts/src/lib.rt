//! One happy path of each public call that no run of the program reaches.
#![tactic(auto)]

#[cfg(test)]
mod calls;
#[cfg(test)]
mod cells;
#[cfg(test)]
mod devices;
#[cfg(test)]
mod lines;
#[cfg(test)]
mod lists;
#[cfg(test)]
mod names;
#[cfg(test)]
mod places;
#[cfg(test)]
mod print;
#[cfg(test)]
mod tables;
#[cfg(test)]
mod tree;
#[cfg(test)]
mod walks;
