//! Rows that are set once, and read without a lock.
//!
//! [`Cells`] have a cell for each row of a table. Each caller takes a [`Pass`] of them, which remembers what it has
//! learned of each cell. Nothing but an opening, a pass and a parcel takes memory, and nothing waits.
#![tactic(auto)]

mod cells;
mod note;
mod pass;

pub use cells::{Cells, Shown};
pub use pass::{Parcel, Pass};

#[cfg(test)]
mod tests;
