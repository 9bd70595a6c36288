// The six records, as values, and one layout for reading and writing them. The kind of a proposal stays the raw byte
// (1 fast, 2 slow), so that every byte string of the right length and mark is a record.
#![tactic(auto)]

use seats::SeatSet;

// Why something is refused.
pub mod refusal;

// Each mark, length and place.
pub mod layout;

// Checks 4 and 5, and the kind of record by its mark.
mod checks;

// L, the rooms, and the checks of sixteen numbers.
pub mod numbers;

// The reading of a run of records.
pub mod run;

pub use checks::{check, check_length, kind_of, mark_value, room_of};
pub use refusal::Refusal;

// The two kinds of a proposal.
pub const FAST: u8 = 1;

pub const SLOW: u8 = 2;

// A record of a room, with the room.
#[derive(Clone, Copy)]
pub struct InRoom<R> {
    pub room: u8,
    pub record: R,
}

// What an office is told of its seats: Moshe's notification of the network event mechanism.
#[derive(Clone, Copy)]
pub struct Report {
    pub joining: SeatSet,
    pub leaving: SeatSet,
}

#[derive(Clone, Copy)]
pub struct Proposal {
    pub sender: u8,
    pub kind: u8,
    pub members: SeatSet,
    pub start: u32,
    pub number: u32,
    pub used: [u32; 16],
}

// Moshe's startChange.
#[derive(Clone, Copy)]
pub struct Notice {
    pub start: u32,
    pub members: SeatSet,
}

#[derive(Clone, Copy)]
pub struct View {
    pub number: u32,
    pub members: SeatSet,
    pub starts: [u32; 16],
}

// What a desk sends the other desks after a start notice: its seat, the notice's start number, the number of the view
// that is ending.
#[derive(Clone, Copy)]
pub struct Sync {
    pub seat: u8,
    pub start: u32,
    pub previous: u32,
}

// A high mark of an office's file: no number above it has left the office. One that is written has one number twice.
#[derive(Clone, Copy)]
pub struct High {
    pub number: u32,
    pub again: u32,
}

// The records that reach the server.
#[derive(Clone, Copy)]
pub enum RecordKind {
    Report,
    Proposal,
}
