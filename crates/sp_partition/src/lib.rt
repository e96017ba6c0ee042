//! Partitions of at most 32: their order, their nodes and their text.
#![tactic(auto)]

mod conjugate;
mod dominance;
mod eights;
mod items;
mod law;
mod listing;
mod order;
mod partition;
mod ranking;
mod reader;
mod text;

pub use items::Items;
pub use law::values_law;
pub use listing::{all_of, regular_of};
pub use partition::{NotPartition, Partition};
pub use ranking::{place_in, rank};

/// The greatest degree that the program's commands take.
pub const DEGREE_LIMIT: u8 = 30;

/// The greatest degree of a `Partition`, and so the greatest number of its parts.
pub const CAPACITY: u8 = 32;
