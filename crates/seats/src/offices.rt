// The offices of a set of seats: which they are, how many, and the lowest. There are 16 offices, 0 to 15; seat s
// belongs to office s / 4, rounded down.
ghost use Rattle.std.specs.Prelude.{◌≡◌};
ghost use Rattle.std.specs.Int.Count.{ones};
ghost use Rattle.seats.specs.Offices.{office_of, seats_of, serves, offices_of, touched, lowest_of, first_of};

use crate::SeatSet;

const OFFICES: u8 = 16;

// Bit o of `bits` is set when office o is in the set; `count` is the number of these offices.
#[derive(Clone, Copy)]
pub struct OfficeSet {
    pub bits: u16,
    pub count: u8,
}

// The lowest office of sixteen bits.
pub fn first(bits: u16) -> Option<u8>
    ensures { result ≡ first_of bits }
{
    if bits == 0 {
        None
    } else {
        Some(u16::trailing_zeros(bits) as u8)
    }
}

// The four seats of each office fall onto its lowest one, and these sixteen bits close up by halves.
fn gather(x: u64) -> u64
    ensures { result ≡ offices_of x }
{
    let a = (x | (x >> 1) | (x >> 2) | (x >> 3)) & 0x1111_1111_1111_1111;
    let b = (a | (a >> 3)) & 0x0303_0303_0303_0303;
    let c = (b | (b >> 6)) & 0x000f_000f_000f_000f;
    let d = (c | (c >> 12)) & 0x0000_00ff_0000_00ff;
    (d | (d >> 24)) & 0xffff
}

pub fn office_of(seat: u8) -> u8
    ensures { result ≡ office_of seat }
{
    seat / 4
}

// The four seats of an office; none for an office above 15.
fn seats_of(office: u8) -> SeatSet
    ensures { result.bits ≡ seats_of office }
{
    if office < OFFICES {
        SeatSet {
            bits: 15u64 << (4 * office),
        }
    } else {
        SeatSet::EMPTY
    }
}

// Whether the office has a seat in the set; no for an office above 15.
pub fn serves(set: SeatSet, office: u8) -> bool
    ensures { result ≡ serves set.bits office }
{
    let seats = seats_of(office);
    set.bits & seats.bits != 0
}

// How many bits are set.
fn ones(x: u64) -> u8
    ensures { result ≡ ones x }
{
    u64::count_ones(x) as u8
}

// Which offices have a seat in the set, and how many they are.
pub fn touched(set: SeatSet) -> OfficeSet
    ensures { result ≡ touched set.bits }
{
    let seats = set.bits;
    let offices = gather(seats);
    let bits = offices as u16;
    OfficeSet {
        bits,
        count: ones(offices),
    }
}
