//! Ladders of a partition, and the ladder vector.
#![tactic(auto)]

mod counting;
mod law;
mod step;
mod vector;

pub use counting::ladders;
pub use law::ladder_law;
pub use step::Step;
pub use vector::ladder_vector;
