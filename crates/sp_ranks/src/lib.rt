//! Ladder vectors over ranks: a partition is said by its place among all of its degree, ascending.
//!
//! [`Moves`] knows to which ranks the partitions of each degree grow. So a divided power of a [`RankVector`] is made
//! with no partition moved and none compared.
#![tactic(auto)]

mod corners;
mod induction;
mod ladder;
mod moves;
mod polynomials;
mod sums;
mod vector;
mod walk;

pub use induction::induce;
pub use ladder::ladder_vector;
pub use moves::Moves;
pub use polynomials::Polynomials;
pub use vector::RankVector;
