// General theory that several layers share: definitions in specs/, their laws in proofs/. No code.
#![tactic(auto)]
