// Moshe's Figures 5 and 6 beside the rules: definitions and theorems only, in specs and proofs.
#![tactic(auto)]
