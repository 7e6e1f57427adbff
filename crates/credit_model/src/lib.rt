// The credit table above the bench (request Twelve): specs/ has booking in step, the balances being part of the state,
// and the claims; proofs/ the theorems.
#![tactic(auto)]
