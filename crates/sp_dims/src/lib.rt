//! Dimensions: of Specht modules by the hook length formula, and of simple modules from a decomposition matrix.
#![tactic(auto)]

mod equation;
mod fault;
mod simple;
mod specht;

pub use fault::DimsFault;
pub use simple::simple_dims;
pub use specht::specht_dim;
