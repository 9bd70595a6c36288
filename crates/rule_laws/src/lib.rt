// The laws of the rules: theorems only, in proofs.
#![tactic(auto)]
