//! Blocks: two partitions of one degree have the same core exactly where they have the same content, and rows stay in
//! their blocks.
#![tactic(auto)]
