//! Products of grids, and the inverses of triangular ones.
#![tactic(auto)]

mod cells;
mod fault;
mod inverse;
mod law;
mod powers;
mod product;
mod sums;
mod transposes;

pub use fault::GridFault;
pub use inverse::invert;
pub use law::inverse_law;
pub use powers::column_past;
pub use product::multiply;
pub use transposes::transpose;
