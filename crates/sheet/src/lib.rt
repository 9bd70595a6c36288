// Who came along from the old view: the answers that a sheet of sync records gives. No functions.
#![tactic(auto)]

use seats::SeatSet;

// Refused under a number of the documents, as the definition came_along (specs/Sheet) has it; the record of this member
// seat is missing; these members named the number.
#[derive(Clone, Copy)]
pub enum Along {
    Refused(u8),
    Missing(u8),
    Members(SeatSet),
}
