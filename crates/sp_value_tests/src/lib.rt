//! Tests of the crates of partitions, polynomials, vectors and operations, through what they make public.
//!
//! They stand in a crate of their own since a crate with tests is proved twice, and all that it stands on is lowered for
//! them.
#![tactic(auto)]

#[cfg(test)]
mod abacus;
#[cfg(test)]
mod blocks;
#[cfg(test)]
mod fillings;
#[cfg(test)]
mod good;
#[cfg(test)]
mod jantzen;
#[cfg(test)]
mod ladder;
#[cfg(test)]
mod machine;
#[cfg(test)]
mod nodes;
#[cfg(test)]
mod partitions;
#[cfg(test)]
mod polynomials;
#[cfg(test)]
mod power;
#[cfg(test)]
mod sl2;
#[cfg(test)]
mod specht_dims;
#[cfg(test)]
mod vectors;
