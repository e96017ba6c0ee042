//! How far the powers in rows and shares lie from 0, and how many partitions and e-regular partitions there are.
#![tactic(auto)]
