//! The abacus: beta numbers show their partition, a degree is that of its core and e times its weight, and a core with
//! a quotient is one partition.
#![tactic(auto)]
