// The number of a slow proposal: a look at the stored proposals.
ghost use Rattle.std.specs.Prelude.{◌≡◌, ◌+◌, ◌<◌, ◌^◌, max};
ghost use Rattle.rules.specs.State.{stored_at};
ghost use Rattle.row.specs.Held.{held};
ghost use Rattle.propose.specs.Look.{looked_of, look_of, number_by};

use event_parts::counted;
use records::SLOW;
use row::Row;
use seats::SeatSet;
use seats::offices::serves;

// What the number asks of the stored proposals: whether there is a matching slow one above the own number, the largest
// number of those, and the largest number of the net view's offices.
#[derive(Clone, Copy)]
pub struct Look {
    pub above: bool,
    pub joined: u32,
    pub top: u32,
}

// A look at what is stored for office o, after a look at the offices before it.
fn looked(a: Look, row: Row, o: usize, own: usize, number: u32, net: SeatSet) -> Look
    requires { o < 16 }
    ensures { result ≡ looked_of own number net.bits o (stored_at (held row.entry) o) a }
{
    if !row.stored_present(o) {
        return a;
    }
    let n = row.stored_number(o);
    let above = (o != own)
        & (row.stored_members(o) == net)
        & (row.stored_kind(o) == u32::from(SLOW))
        & (number < n);
    Look {
        above: above | a.above,
        joined: counted(above, n).max(a.joined),
        top: counted(serves(net, o as u8), n).max(a.top),
    }
}

pub fn look_at_all(row: Row) -> Look
    requires { (held row).own < 16 }
    ensures { result ≡ look_of 16 (held row.entry) }
{
    let net = row.net();
    let own = usize::from(row.own());
    let number = row.number();
    let mut a = Look {
        above: false,
        joined: 0,
        top: 0,
    };
    for o in 0..16 {
        a = looked(a, row, o, own, number, net);
    }
    a
}

pub fn slow_number(number: u32, a: Look) -> u32
    requires { max number a.top + 1 < 2 ^ 32 }
    ensures { result ≡ number_by number a }
{
    if a.above {
        a.joined
    } else {
        1 + number.max(a.top)
    }
}
