// Theorems over the definitions of the crate `lock`: proofs/ has the one invariant of all runs, and the bounds that
// follow from it.
#![tactic(auto)]
