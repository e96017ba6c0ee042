//! Blocks: the partitions of one degree, grouped by their cores, and the law of blocks.
#![tactic(auto)]

mod block;
mod grouping;
mod law;

pub use block::{Block, same_block};
pub use grouping::blocks;
pub use law::block_law;
