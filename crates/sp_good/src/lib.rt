//! Normal, good and cogood nodes of a partition, paths down to the empty partition, and Mullineux images.
//!
//! `e` is from 2 to 64 throughout. No call takes memory.
#![tactic(auto)]

mod images;
mod law;
mod paths;
mod signature;

pub use images::{NoPath, mullineux};
pub use law::{move_law, signature_law};
pub use paths::path;
pub use signature::{cogood, good, normal};
