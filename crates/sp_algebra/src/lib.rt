//! Facts on Laurent polynomials: coefficients, the ring laws, bar, the lift, and sums over lists.
#![tactic(auto)]
