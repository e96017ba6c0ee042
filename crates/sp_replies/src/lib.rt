//! Replies that need no matrix: what a command on partitions, diagrams, vectors or one row is answered, and why a
//! command is refused.
#![tactic(auto)]

mod abacuses;
mod blocks;
mod diagrams;
mod faults;
mod labels;
mod modules;
mod orders;
mod products;
mod refusals;
mod restrictions;
mod rows;
mod signatures;
mod vectors;
mod words;

pub use abacuses::{put_combined, put_core};
pub use blocks::{block_weight_law, put_blocks};
pub use diagrams::put_content;
pub use faults::put_fault;
pub use labels::{grid_in, refusal_in};
pub use modules::{put_dim, put_jantzen};
pub use orders::{dominance_law, put_conjugate, put_dominance, put_partitions, put_regulars};
pub use products::{MOST_FILLINGS, put_fillings, put_product};
pub use refusals::{Refusal, put_named, put_refusal};
pub use restrictions::{put_branch, put_commutator, put_restriction};
pub use rows::put_row;
pub use signatures::{put_good, put_image, put_path};
pub use vectors::{put_induced, put_ladder_vector, put_ladders};
