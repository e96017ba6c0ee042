//! Worked examples: the definitions, computed.
#![tactic(auto)]
