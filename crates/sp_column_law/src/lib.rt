//! Columns of certificates: when one is too large and when it is right, and that a right one is the row.
#![tactic(auto)]
