//! Restriction of vectors, and its relation to induction.
#![tactic(auto)]
