// Two locks over one set of threads (request Ten): specs/ has the definitions, among them what the bench gives for a
// file, and the claims; proofs/ the theorems and the laws that the code goes by.
#![tactic(auto)]
