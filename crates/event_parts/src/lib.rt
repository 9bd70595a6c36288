// The first parts of an event, on the row of an office; all of it is inner to the layer of the step. The laws say how
// parts follow one another.
#![tactic(auto)]

// What is counted.
mod numbers;

// Where records are written.
mod output;

// A proposal arrives; the start number rises.
mod opening;

pub use numbers::counted;
pub use opening::{opens, receive};
pub use output::Output;
