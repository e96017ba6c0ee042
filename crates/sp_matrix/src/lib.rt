//! Matrices of the coefficients of rows, of their values at v = 1, and blocks of these; conjugates of vectors and of
//! grids.
#![tactic(auto)]

mod cells;
mod columns;
mod comparison;
mod conjugates;
mod cursors;
mod headings;
mod line;
mod matrix;
mod moved;
mod products;
mod scope;

pub use comparison::{Agreement, CompareFault, compare, compare_alone};
pub use conjugates::{conjugate_grid, conjugate_vector, conjugates_law};
pub use matrix::{block, crystal, decomposition};
