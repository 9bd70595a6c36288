// The agreement test on the row of an office: agreement is inner to the layer of the step, and so is lacking, which
// the question whom an office waits for asks too; the rest is inner to this crate.
#![tactic(auto)]

// Which office lacks what the test asks for.
pub mod lacking;

// The view that the test makes.
mod new_view;

// The end of the round.
mod round_end;

// The test.
pub mod agreement;
