//! Tests of sessions, through what the crate of sessions makes public.
//!
//! They stand in a crate of their own since a crate with tests is proved twice, and all that it stands on is lowered for
//! them.
#![tactic(auto)]

#[cfg(test)]
mod certificates;
#[cfg(test)]
mod conventions;
#[cfg(test)]
mod faults;
#[cfg(test)]
mod further;
#[cfg(test)]
mod gates;
#[cfg(test)]
mod pages;
#[cfg(test)]
mod painters;
#[cfg(test)]
mod runs;
#[cfg(test)]
mod sessions;
