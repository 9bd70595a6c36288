// The state, the rules and document 01's days computed by them: definitions and theorems only. The laws stand in
// rule_laws.
#![tactic(auto)]
