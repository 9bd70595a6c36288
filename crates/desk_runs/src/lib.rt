// What an office sends is accepted by its seats: theorems only, in proofs.
#![tactic(auto)]
