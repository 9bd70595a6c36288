// What a desk calls from C: its seat and its rooms' machines in the caller's words, changed in place; include/room.h
// declares it.
ghost use Rattle.std.specs.Prelude.{◌≡◌, ◌<◌, length};
ghost use Rattle.std.proofs.lemmas.List.Edits.{sets};
ghost use Rattle.records.specs.Numbers.{room_count};
ghost use Rattle.records.specs.Write.{Placed};
ghost use Rattle.desk.specs.Rooms.{desk_in, machine_of, in_every_room};
ghost use Rattle.calls.specs.DeskWords.{desk_length, is_desk, machine_place, desk_of, machine_words, desk_words};
ghost use Rattle.calls.specs.DeskWords.{fresh_in_words, hear_in_words, sync_in_words};

use crate::number::refusal_number;
use desk::{Desk, fresh_seat, hear, make_sync};
use records::numbers::{ROOMS, room_above};
use records::{Refusal, room_of};

// How many words are a desk: the seat, then a machine for each room.
const WORDS: usize = 1 + MACHINE * (ROOMS as usize);

const SEAT: usize = 0;

// A machine's words, and the place of each among them.
const MACHINE: usize = 3;

const START: usize = 0;

const VIEW: usize = 1;

const CHANGING: usize = 2;

// Where the machine of a room begins.
fn machine_place(room: u8) -> usize
    ensures { result ≡ machine_place room }
{
    1 + MACHINE * usize::from(room)
}

// Words of another length are no desk.
fn is_desk(words: &[u32]) -> bool
    ensures { result ≡ is_desk words.now }
{
    words.len() == WORDS
}

// The desk of one room; a room above 7 has no words, and its machine is that of zeros. It takes a slice, as do the
// functions below: the contract of try_from, at `&mut [u32; WORDS]`, does not say that an Err leaves the words.
#[tactic(auto, using(crate::proofs::InDeskWords::read_laws))]
fn desk_in(words: &[u32], room: u8) -> Desk
    requires { length words.now ≡ desk_length }
    ensures { result ≡ desk_in (desk_of words.now) room }
{
    let seat = words[SEAT];
    if room_above(room) {
        return Desk {
            seat,
            ..Desk::default()
        };
    }
    let at = machine_place(room);
    Desk {
        seat,
        start: words[at + START],
        view: words[at + VIEW],
        changing: words[at + CHANGING] != 0,
    }
}

// The machine of a room; every other word stays.
#[tactic(auto, using(crate::proofs::InDeskWords::machine_written))]
fn put_machine(words: &mut [u32], room: u8, desk: Desk)
    requires { (length words.old ≡ desk_length) × (room < room_count) }
    ensures { words.new
        ≡ sets words.old (machine_place room) (machine_words (machine_of desk)) }
{
    let at = machine_place(room);
    words[at + START] = desk.start;
    words[at + VIEW] = desk.view;
    words[at + CHANGING] = u32::from(desk.changing);
}

// The seat, and the same machine in every room.
#[tactic(auto, using(crate::proofs::InDeskWords::rooms_laws))]
fn put_in_every_room(words: &mut [u32], desk: Desk)
    requires { length words.old ≡ desk_length }
    ensures { words.new ≡ desk_words (in_every_room desk) }
{
    words[SEAT] = desk.seat;
    for room in 0..ROOMS {
        put_machine(words, room, desk);
    }
}

// Makes a desk in the words lent, the fresh seat 0 where the seat is refused.
#[tactic(auto, using(crate::proofs::InDeskWords::fresh_laws))]
#[unsafe(no_mangle)]
pub extern "C" fn room_desk_fresh(seat: u8, desk: &mut [u32]) -> u8
    ensures { record { refusal = result; words = desk.new } ≡ fresh_in_words seat desk.old }
{
    if !is_desk(desk) {
        return u8::from(Refusal::Sender);
    }
    let made = fresh_seat(seat);
    put_in_every_room(desk, made.unwrap_or(Desk::default()));
    refusal_number(made)
}

// Hands a start notice or a view to the desk in the words lent: the machine of its room hears it.
#[tactic(auto, using(crate::proofs::InDeskWords::hear_laws))]
#[unsafe(no_mangle)]
pub extern "C" fn room_desk_hear(desk: &mut [u32], record: &[u8]) -> u8
    ensures { record { refusal = result; words = desk.new }
        ≡ hear_in_words desk.old «record».now }
{
    if !is_desk(desk) {
        return u8::from(Refusal::Sender);
    }
    let room = room_of(record);
    match hear(desk_in(desk, room), record) {
        Ok(heard) => {
            put_machine(desk, room, heard);
            0
        }
        Err(e) => u8::from(e),
    }
}

// Writes the sync record of a room from the desk in the words lent, which are only read.
#[tactic(auto, using(crate::proofs::InDeskWords::sync_laws))]
#[unsafe(no_mangle)]
pub extern "C" fn room_desk_sync(desk: &[u32], room: u8, out: &mut [u8]) -> usize
    ensures { Placed out.old 0 (sync_in_words desk.now room) result out.new }
{
    if !is_desk(desk) {
        return 0;
    }
    if room_above(room) {
        return 0;
    }
    make_sync(desk_in(desk, room), out)
}
