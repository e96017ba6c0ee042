//! Divided powers on vectors of the Fock space.
#![tactic(auto)]

mod fault;
mod moves;
mod power;
mod runs;

pub use fault::PowerFault;
pub use power::induce;
