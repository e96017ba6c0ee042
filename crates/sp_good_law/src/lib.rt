//! Good and cogood moves keep e-regularity.
#![tactic(auto)]
