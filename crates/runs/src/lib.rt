// The world of sixteen offices and what holds in every run of it: definitions in specs/, laws in proofs/. No code.
#![tactic(auto)]
