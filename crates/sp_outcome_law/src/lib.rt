//! How a row is reached share by share, and when its outcome is decided.
#![tactic(auto)]
