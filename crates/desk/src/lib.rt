// The desk's own end: a seat is made, takes start notices and views, and keeps the last start number, the last view
// number and whether a change is open; after a notice it makes its sync record.
#![tactic(auto)]

// What a view's own numbers are asked by whoever reads one, a seat or a sheet.
pub mod views;

// A seat's state, and what it asks of a start notice or a view that was read.
mod checks;

// A desk whose seat is one of the 64.
mod seated;

// Making a seat.
mod making;

// Taking a start notice or a view.
mod hearing;

// Making a sync record.
mod syncing;

pub use checks::Desk;
pub use hearing::hear;
pub use making::fresh_seat;
pub use syncing::make_sync;
