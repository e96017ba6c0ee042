//! The rule of Littlewood and Richardson: fillings of skew shapes, and products of Schur functions.
#![tactic(auto)]

mod fault;
mod filling;
mod law;
mod products;
mod strips;

pub use fault::LrFault;
pub use filling::{Filling, fillings};
pub use law::filling_law;
pub use products::product;
