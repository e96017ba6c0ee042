//! Tallies kept by slots, one for each partition of a degree, ascending.
//!
//! An [`Indexed`] is a vector whose partitions know their places among all partitions of the degree. So a multiple of
//! it is subtracted from [`Slots`] with no search and no comparison of partitions.
#![tactic(auto)]

mod indexed;
mod slot;
mod slots;

pub use indexed::Indexed;
pub use slots::Slots;
