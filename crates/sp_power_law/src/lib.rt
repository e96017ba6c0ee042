//! Divided powers: sources, what a vector is determined by, weights, and the plain way to all moves from a partition.
#![tactic(auto)]
