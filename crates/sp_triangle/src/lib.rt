//! Rows and shares over any unitriangular family of vectors.
#![tactic(auto)]
