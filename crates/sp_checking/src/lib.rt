//! Certificates in the lines of an input: how far one has come, and what its lines are answered.
#![tactic(auto)]

mod law;
mod so_far;
mod verdict;

pub use law::end_law;
pub use so_far::Checking;
