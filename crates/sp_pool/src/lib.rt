//! Lists of all rows of a context, made alone or by many workers.
//!
//! Workers claim rows at a desk, look for the earlier rows that they need in cells, and wait for them at the desk.
//! There is one desk for all rows, or one for each block. The caller's thread collects the list, and makes each row
//! that no worker has made.
#![tactic(auto)]

mod alone;
mod block_worker;
mod by_blocks;
mod collecting;
mod gate;
mod many;
mod member;
mod table;
mod worker;

pub use alone::fill_alone;
pub use by_blocks::fill_blocks;
pub use gate::{Gate, Still};
pub use many::{fill, fill_into};
pub use member::Member;

#[cfg(test)]
mod block_tests;
#[cfg(test)]
mod tests;
