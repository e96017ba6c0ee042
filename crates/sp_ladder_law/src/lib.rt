//! The ladder law and the contents of ladder vectors.
#![tactic(auto)]
