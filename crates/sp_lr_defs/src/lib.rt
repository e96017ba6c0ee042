//! Fillings of skew shapes whose word is a lattice word, as the rule of Littlewood and Richardson counts them.
#![tactic(auto)]
