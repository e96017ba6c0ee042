//! Restriction of vectors of the Fock space, and its relation to induction.
#![tactic(auto)]

mod law;
mod multiples;
mod relation;
mod restriction;
mod shares;
mod targets;

pub use law::{commutator_law, divided_power_law, restriction_law};
pub use relation::commutator;
pub use restriction::restrict;
