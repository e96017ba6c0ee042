//! Vectors of the Fock space: finite maps from the partitions of one degree to Laurent polynomials; vectors with
//! totals, and tables of polynomials.
#![tactic(auto)]

mod fault;
mod grid;
mod joined;
mod meeting;
mod merged;
mod row;
mod sums;
mod tally;
mod terms;
mod text;
mod totals;
mod vector;

pub use fault::FockFault;
pub use grid::{Grid, push_cell, sparse_row};
pub use row::Row;
pub use tally::Tally;
pub use terms::Terms;
pub use vector::Vector;
