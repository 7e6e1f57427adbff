// The dispatcher over the bench (request Nine): specs/ has its definitions and claims, proofs/ the theorems and the
// laws that its code goes by.
#![tactic(auto)]
