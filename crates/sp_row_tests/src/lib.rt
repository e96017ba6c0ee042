//! Tests of the crates of rows, certificates and matrices, through what they make public.
//!
//! They stand in a crate of their own since a crate with tests is proved twice, and all that it stands on is lowered for
//! them.
#![tactic(auto)]

#[cfg(test)]
mod cartan;
#[cfg(test)]
mod certificate_lines;
#[cfg(test)]
mod certificates;
#[cfg(test)]
mod inverse;
#[cfg(test)]
mod matrices;
#[cfg(test)]
mod ranks;
#[cfg(test)]
mod rows;
#[cfg(test)]
mod simple_dims;
