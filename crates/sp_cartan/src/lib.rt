//! What is read off a decomposition matrix: its square part, the inverse of that part, its Cartan matrix, and the
//! simple modules as sums of Specht modules.
#![tactic(auto)]

mod cartan;
mod characters;
mod inverses;
mod squares;

pub use cartan::cartan_matrix;
pub use characters::simple_character;
pub use inverses::{INVERTED_POWERS, inverse_matrix};
pub use squares::square;
