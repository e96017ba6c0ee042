//! Facts on lists that the standard library lacks.
#![tactic(auto)]
