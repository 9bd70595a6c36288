// Eight rooms on one server: a table's runs, sixteen servers with their tables and files, and what a room sees of them.
// Definitions in specs/, laws in proofs/. No code.
#![tactic(auto)]
