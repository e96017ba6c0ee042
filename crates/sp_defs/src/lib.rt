//! The definitions: partitions, nodes, polynomials, Fock space, ladders, rows, signatures, the abacus and texts.
#![tactic(auto)]
