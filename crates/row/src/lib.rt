// The state of an office in a row of words, one row for each room in the table that the caller lends; inner to the
// layer of the step. Contracts speak of the record State; no function outside this crate names a place of the row.
// An office is an index below 16 here, not a type: loops go over 0..16, and each turn would make one anew.
#![tactic(auto)]

// The places.
mod layout;

// The modes.
mod modes;

// Whether words are a row.
mod form;

// A row, read or changed.
mod lent;

// What a row holds.
mod readers;

// Check 2, and whether the numbers that an event builds on are low.
pub mod checks;

// Words stored from a place on.
mod stores;

// Changes of what a row holds.
pub mod changes;

// Changes of the stored proposals.
pub mod slots;

// The rows of all rooms.
pub mod table;

pub use layout::WORDS;
pub use lent::{Row, RowMut};
pub use modes::Mode;
use records::numbers::LIMIT;

// Numbers up to this make none above L in one event, which adds two at most.
pub const LOW: u32 = LIMIT - 2;
