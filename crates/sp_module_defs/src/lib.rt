//! The definitions: Jantzen sums, agreement with a matrix, dimensions of Specht modules and of simple modules.
#![tactic(auto)]
