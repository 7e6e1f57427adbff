// All claims on one page: specs/Claims, proved by proofs/Claims. There is no code.
#![tactic(auto)]
