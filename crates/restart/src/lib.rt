// A server that loses its current: its file of high marks read, the state with which it begins again, and the mark
// that goes into the file before a record leaves.
#![tactic(auto)]

// One pass over the file.
mod marks;

// The state made again.
mod restarting;

// What must happen before a record may leave.
mod leaving;

pub use leaving::{DueMark, mark_before};
pub use marks::last_mark;
pub use restarting::restart;
