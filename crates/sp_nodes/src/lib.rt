//! Nodes of a partition's diagram: residues, addable and removable nodes, hook lengths and contents.
//!
//! Rows and columns are counted from 1, rows from the top. `e` is from 2 to 64 throughout.
#![tactic(auto)]

mod corners;
mod diagram;
mod node;
mod texts;

pub use corners::{Corner, Mark, addable, marks, removable};
pub use diagram::{content, hook, nodes};
pub use node::{Node, residue};
pub use texts::{diagram_text, hooks_text};
