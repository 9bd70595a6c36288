// An office's own proposal, fast or slow: it is made of the state, and stored.
ghost use Rattle.std.specs.Prelude.{◌≡◌, ◌≤◌, ◌<◌};
ghost use Rattle.laws.specs.Tab.{tab};
ghost use Rattle.laws.specs.Upd.{ifb};
ghost use Rattle.seats.specs.Offices.{serves};
ghost use Rattle.rules.specs.State.{used_at};
ghost use Rattle.rules.specs.Rules.{own_proposal, proposed};
ghost use Rattle.row.specs.Held.{held, held_mut};
ghost use Rattle.row.specs.Modes.{meaning};
ghost use Rattle.row.specs.Moved.{Moved};

use event_parts::counted;
use records::Proposal;
use row::{Mode, Row, RowMut};
use seats::SeatSet;
use seats::offices::serves;

// The used numbers of the offices of a set, 0 for the others.
fn used_within(row: Row, net: SeatSet) -> [u32; 16]
    ensures { result ≡ tab 16 (λ o. ifb (serves net.bits o) (used_at (held row.entry) o) 0) }
{
    let mut used = [0; 16];
    for o in 0..16 {
        used[o] = counted(serves(net, o as u8), row.used(o));
    }
    used
}

pub fn own_proposal(row: Row, mode: Mode, n: u32) -> Proposal
    requires { (held row).own < 16 }
    ensures { result ≡ own_proposal (meaning mode) n (held row.entry) }
{
    let net = row.net();
    Proposal {
        sender: row.own(),
        kind: u8::from(mode),
        members: net,
        start: row.start(),
        number: n,
        used: used_within(row, net),
    }
}

// The proposal made is stored as the own one.
pub fn keep_own(row: &mut RowMut, mode: Mode, p: Proposal)
    requires { p ≡ own_proposal (meaning mode) p.number (held_mut row.old) }
    ensures { Moved (proposed (meaning mode) p.number) row.old row.new }
{
    row.put_stored(usize::from(p.sender), p);
    row.set_number(p.number);
    row.set_mode(mode);
}
