// The proposals that an office makes, on its row; fast and slow_test are inner to the layer of the step, and the rest
// to this crate.
#![tactic(auto)]

// The own proposal, made and stored.
mod own_proposals;

// Steps 4 and 5 of a report.
pub mod fast;

// Whether slow agreement is called for.
mod slow_call;

// The number of a slow proposal.
mod slow_look;

// The slow test.
pub mod slow_test;
