//! The law of rows and shares, and their contents.
#![tactic(auto)]
