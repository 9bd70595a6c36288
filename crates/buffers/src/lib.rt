// The two buffers of the program, inner to it: what is read and not answered yet, what is answered and not written.
#![tactic(auto)]

// Where the program stands, and the bytes read and not yet answered.
pub mod input;

// The lines not yet written, and when they are.
pub mod output;

// Whether a call that failed is tried again.
mod retry;

// Where the program stands after a write and after a line.
pub mod progress;
