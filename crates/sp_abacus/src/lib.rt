//! The abacus of a partition: beta numbers, core, weight and quotient, and the partition that has these two.
//!
//! The bead at a number stands on runner number mod `e`, at place number div `e`. `e` is from 2 to 64 throughout, and
//! only the text takes memory.
#![tactic(auto)]

mod beads;
mod combining;
mod parts;
mod text;

pub use beads::beta;
pub use combining::{CombineFault, combine};
pub use parts::{core, quotient, shown, weight};
pub use text::abacus_text;
