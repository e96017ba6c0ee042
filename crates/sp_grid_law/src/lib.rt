//! Products of grids, and inverses of triangular grids: definitions, and that there is exactly one inverse.
#![tactic(auto)]
