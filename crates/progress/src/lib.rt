// Deadlock freedom: one lock never gets stuck, two do not where threads take them in one order, and can otherwise
// (specs/, proofs/).
#![tactic(auto)]
