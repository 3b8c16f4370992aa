//! Tests of public calls of the other crates that no row of the table shows. They are here, since a crate with tests is
//! proved twice.
#![tactic(auto)]

#[cfg(test)]
mod calls;
#[cfg(test)]
mod faults;
#[cfg(test)]
mod outside;
#[cfg(test)]
mod paths;
#[cfg(test)]
mod stores;
#[cfg(test)]
mod terms;
#[cfg(test)]
mod types;
