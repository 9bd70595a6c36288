// Whether slow agreement is called for: a look at what is stored that stops at the first proposal which calls for it.
ghost use Rattle.std.specs.Prelude.{false, ◌≡◌, ◌<◌};
ghost use Rattle.rules.specs.State.{kind_of, stored_at};
ghost use Rattle.rules.specs.Rules.{is_none, slow_called};
ghost use Rattle.row.specs.Held.{held};
ghost use Rattle.row.specs.Modes.{meaning};
ghost use Rattle.propose.specs.Look.{calls_by};

use records::SLOW;
use row::{Mode, Row};
use seats::SeatSet;
use seats::offices::first;

// What is stored for office o calls for it.
fn calls(row: Row, o: usize, own: usize, mode: Mode, number: u32, net: SeatSet) -> bool
    requires { (o < 16) × (own < 16) }
    ensures { result
        ≡ calls_by (kind_of (meaning mode)) own number net.bits o (stored_at (held row.entry) o).proposal }
{
    if o == own {
        return false;
    }
    if row.stored_members(o) != net {
        return false;
    }
    (row.stored_used(o, own) == number)
        | ((row.stored_kind(o) == u32::from(SLOW))
            & ((mode == Mode::Fast) | (number < row.stored_number(o))))
}

// In mode fast or slow.
pub fn slow_called(row: Row) -> bool
    requires { ((held row).own < 16) × (is_none (held row).mode ≡ false) }
    ensures { result ≡ slow_called (held row.entry) }
{
    let mode = row.mode();
    let net = row.net();
    let own = usize::from(row.own());
    let number = row.number();
    let mut left = row.present();
    // The offices left are bits of a number, and no iterator of std goes over bits.
    while let Some(o) = first(left) {
        if calls(row, usize::from(o), own, mode, number, net) {
            return true;
        }
        left &= left - 1;
    }
    false
}
