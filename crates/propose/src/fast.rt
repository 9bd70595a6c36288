// Steps 4 and 5 of a report: the next number, the fast proposal, whether it has a recipient.
ghost use Rattle.std.specs.Prelude.{true, ◌≡◌, ◌<◌};
ghost use Rattle.laws.specs.Fin.{largest};
ghost use Rattle.seats.specs.Offices.{serves};
ghost use Rattle.rules.specs.Rules.{seated, next_number, has_recipient, proposes_fast};
ghost use Rattle.row.specs.Held.{held, held_mut};
ghost use Rattle.event_parts.specs.Done.{Done, HasRoom};
ghost use Rattle.event_parts.specs.Bounds.{reach, Bounded};
ghost use Rattle.event_parts.specs.Parts.{counted_at};

use crate::own_proposals::{keep_own, own_proposal};
use event_parts::{Output, counted};
use records::{InRoom, Proposal};
use row::{Mode, Row, RowMut};
use seats::SeatSet;
use seats::offices::{serves, touched};

// The number of what is stored for office o of a set; nothing, and any other office, counts as 0.
fn counted_at(row: Row, net: SeatSet, o: usize) -> u32
    requires { o < 16 }
    ensures { result ≡ counted_at net.bits (held row.entry) o }
{
    if !row.stored_present(o) {
        return 0;
    }
    counted(serves(net, o as u8), row.stored_number(o))
}

fn largest_stored(row: Row) -> u32
    ensures { result ≡ largest 16 (counted_at (held row.entry).net.bits (held row.entry)) }
{
    let net = row.net();
    let mut top = 0;
    for o in 0..16 {
        top = counted_at(row, net, o).max(top);
    }
    top
}

fn next_number(row: Row) -> u32
    requires { Bounded reach (held row) }
    ensures { result ≡ next_number (held row.entry) }
{
    1 + row.number().max(largest_stored(row))
}

// Some office other than the sender has a seat among the members. The sender has one itself (step 2), so this is so
// exactly where the members are of more offices than one.
fn has_recipient(p: Proposal) -> bool
    requires { (p.sender < 16) × (serves p.members.bits p.sender ≡ true) }
    ensures { result ≡ has_recipient p }
{
    let offices = touched(p.members);
    1 < offices.count
}

// For an office with a seat in the net view.
pub fn proposes_fast(row: &mut RowMut, out: &mut Output)
    requires { Bounded reach (held_mut row.old) × HasRoom proposes_fast row.old out.old
        × (seated (held_mut row.old) ≡ true) }
    ensures { Done proposes_fast row.old out.old row.new out.new }
{
    let held = row.get();
    let p = own_proposal(held, Mode::Fast, next_number(held));
    keep_own(row, Mode::Fast, p);
    if !has_recipient(p) {
        return;
    }
    out.write(InRoom {
        room: out.room,
        record: p,
    });
}
