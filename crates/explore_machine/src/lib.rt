// No code here: specs/Closed has when a set of states is complete and what follows, for the crates that explore a lock.
#![tactic(auto)]
