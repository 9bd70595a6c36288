// What the desk program asks from C, with plain numbers and byte buffers and no state; include/room.h declares it.
ghost use Rattle.std.specs.Prelude.{◌≡◌};
ghost use Rattle.records.specs.Layout.{check_of};
ghost use Rattle.rules.specs.Tables.{read_of};
ghost use Rattle.seats.specs.Offices.{offices_of, count_of};

use crate::number::refusal_number;
use seats::SeatSet;
use seats::offices::touched;

// The number by checks 4 and 5 for some bytes; 0 where they pass both.
#[unsafe(no_mangle)]
pub extern "C" fn room_record_check(bytes: &[u8]) -> u8
    ensures { result ≡ check_of bytes.now }
{
    refusal_number(records::check(bytes))
}

// The reading call's number for a record and an office: 1, 4, 5, 20, 6 to 10, 19, or 0.
#[tactic(auto, using(crate::proofs::Called::read_refusal))]
#[unsafe(no_mangle)]
pub extern "C" fn room_read(office: u8, bytes: &[u8]) -> u8
    ensures { result ≡ (read_of office bytes.now).refusal }
{
    refusal_number(events::read_event(office, bytes))
}

// The offices of a seat set: bit o is set when office o has a seat in it.
#[unsafe(no_mangle)]
pub extern "C" fn room_offices(set: u64) -> u16
    ensures { result ≡ offices_of set }
{
    touched(SeatSet { bits: set }).bits
}

// How many offices have a seat in a set.
#[unsafe(no_mangle)]
pub extern "C" fn room_office_count(set: u64) -> u8
    ensures { result ≡ count_of set }
{
    touched(SeatSet { bits: set }).count
}
