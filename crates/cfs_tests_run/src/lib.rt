//! Tests of the top calls: tables of scripts with what each prints or is refused for, and devices that fail.
#![tactic(auto)]

#[cfg(test)]
mod counted;
#[cfg(test)]
mod creates;
#[cfg(test)]
mod deep;
#[cfg(test)]
mod devices;
#[cfg(test)]
mod forms;
#[cfg(test)]
mod limits;
#[cfg(test)]
mod many;
#[cfg(test)]
mod mkdirs;
#[cfg(test)]
mod names;
#[cfg(test)]
mod paths;
#[cfg(test)]
mod places;
#[cfg(test)]
mod refusals;
#[cfg(test)]
mod tables;
