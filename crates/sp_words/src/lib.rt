//! The words of the command line, and the lines that they ask to be made.
#![tactic(auto)]

mod found;
mod lines;
#[cfg(test)]
mod tests;
mod value;
mod words;

pub use lines::generated;
pub use words::{GREATEST_LIMIT, Words, WordsFault, greatest_limit_law, read_words};
