// One slow proposal, one view, over the world of crate runs: statement in specs/, proof in proofs/. No code.
#![tactic(auto)]
