//! Facts on partitions, diagrams, nodes, moves and the list of all partitions.
#![tactic(auto)]
