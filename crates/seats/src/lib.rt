// Sets of seats. There are 64 seats, 0 to 63.
#![tactic(auto)]

ghost use Rattle.std.specs.Prelude.{◌≡◌, eqb};
ghost use Rattle.seats.specs.Seats.{is_seat, contains_of, insert_of, remove_of, lowest_seat, first_seat};
ghost use Rattle.seats.specs.Seats.{union_of, without_of};

// The offices of a set: which they are, how many, and the lowest.
pub mod offices;

pub const SEATS: u8 = 64;

// Whether there is such a seat.
fn is_seat(seat: u8) -> bool
    ensures { result ≡ is_seat seat }
{
    seat < SEATS
}

// Bit s of `bits` is set when seat s is in the set.
#[derive(Clone, Copy, PartialEq, Eq)]
pub struct SeatSet {
    pub bits: u64,
}

impl SeatSet {
    pub const EMPTY: SeatSet = SeatSet { bits: 0 };

    // A seat above 63 leaves the set as it is.
    pub fn insert(self, seat: u8) -> SeatSet
        ensures { result.bits ≡ insert_of self.bits seat }
    {
        if is_seat(seat) {
            SeatSet {
                bits: self.bits | (1u64 << seat),
            }
        } else {
            self
        }
    }

    pub fn remove(self, seat: u8) -> SeatSet
        ensures { result.bits ≡ remove_of self.bits seat }
    {
        if is_seat(seat) {
            SeatSet {
                bits: self.bits & !(1u64 << seat),
            }
        } else {
            self
        }
    }

    // No for a seat above 63.
    pub fn contains(self, seat: u8) -> bool
        ensures { result ≡ contains_of self.bits seat }
    {
        if is_seat(seat) {
            (self.bits >> seat) & 1 == 1
        } else {
            false
        }
    }

    pub fn union(self, other: SeatSet) -> SeatSet
        ensures { result.bits ≡ union_of self.bits other.bits }
    {
        SeatSet {
            bits: self.bits | other.bits,
        }
    }

    // The seats of this set that are not in the other.
    pub fn without(self, other: SeatSet) -> SeatSet
        ensures { result.bits ≡ without_of self.bits other.bits }
    {
        SeatSet {
            bits: self.bits & !other.bits,
        }
    }

    // The lowest seat. As `offices::first`, of another width: one for both would ask a trait for trailing zeros.
    pub fn first(self) -> Option<u8>
        ensures { result ≡ first_seat self.bits }
    {
        if self.is_empty() {
            None
        } else {
            Some(u64::trailing_zeros(self.bits) as u8)
        }
    }

    pub fn is_empty(self) -> bool
        ensures { result ≡ eqb self.bits 0 }
    {
        self.bits == 0
    }
}
