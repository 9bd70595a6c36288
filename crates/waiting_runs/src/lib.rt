// Whom an office waits for along its runs: theorems only, in proofs.
#![tactic(auto)]
