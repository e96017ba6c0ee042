//! Jantzen sums: one bead of the abacus goes up and a lower one comes down by as many steps.
#![tactic(auto)]

mod numbers;
mod sum;
mod term;

pub use sum::jantzen;
