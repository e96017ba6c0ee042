//! Facts on the vectors of the Fock space as ascending lists of entries: what determines them, and how two are added.
#![tactic(auto)]
