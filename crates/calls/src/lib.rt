// The calls for C; include/room.h declares them.
#![tactic(auto)]

// The number that a call answers.
mod number;

// What a desk asks without a state: is this a record, whom does it concern.
mod questions;

// An office at work: its state and the step.
mod office;

// Whom an office waits for.
mod waits;

// A desk with its rooms.
mod desks;

// Who came along from the old view.
mod along;

// An office that may lose its current.
mod restarts;
