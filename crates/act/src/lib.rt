// What a report and a proposal do to the row of an office, inner to the layer of the step; the tests of a round are
// inner to this crate.
#![tactic(auto)]

// The slow test, then the agreement test.
mod round_tests;

// A report.
pub mod on_report;

// A proposal.
pub mod on_proposal;
