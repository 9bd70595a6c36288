// L and the rooms; check 20, and the two checks that the sixteen numbers of a record meet wherever it is read: a
// proposal's used numbers, a view's start numbers.
ghost use Rattle.std.specs.Prelude.{◌≡◌};
ghost use Rattle.records.specs.Numbers.{room_above, above_limit, non_zero_count, stray_number};

use seats::SeatSet;
use seats::offices::{first, touched};

// L.
pub const LIMIT: u32 = 2_000_000_000;

// How many rooms a server has.
pub const ROOMS: u8 = 8;

// Check 20: whether a room is above the last.
pub fn room_above(room: u8) -> bool
    ensures { result ≡ room_above room }
{
    ROOMS <= room
}

// Check 8: whether one of sixteen numbers is above L.
pub fn above_limit(numbers: &[u32; 16]) -> bool
    ensures { result ≡ above_limit numbers.now }
{
    let mut above = false;
    for n in numbers {
        above = (LIMIT < *n) | above;
    }
    above
}

// How many of sixteen numbers are not 0.
fn nonzero(numbers: &[u32; 16]) -> u32
    ensures { result ≡ non_zero_count numbers.now }
{
    let mut all: u32 = 0;
    for n in numbers {
        all += (*n != 0) as u32;
    }
    all
}

// Check 10: whether one of sixteen numbers is not 0 for an office without a seat in the members. It counts: the
// processor cannot foresee a branch on each number.
pub fn stray_number(members: SeatSet, numbers: &[u32; 16]) -> bool
    ensures { result ≡ stray_number members.bits numbers.now }
{
    let offices = touched(members);
    let mut left = offices.bits;
    let mut others = nonzero(numbers);
    // The offices left are bits of a number, and no iterator of std goes over bits.
    while let Some(o) = first(left) {
        others -= (numbers[o as usize] != 0) as u32;
        left &= left - 1;
    }
    others != 0
}
