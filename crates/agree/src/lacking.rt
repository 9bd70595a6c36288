// The lowest-numbered office of the net view without the proposal that the agreement test asks for, on the row of an
// office.
ghost use Rattle.std.specs.Prelude.{not, false, ◌≡◌, ◌<◌, unwrap_or, IfSome};
ghost use Rattle.rules.specs.State.{kind_of, stored_at};
ghost use Rattle.rules.specs.Rules.{is_none};
ghost use Rattle.row.specs.Held.{held};
ghost use Rattle.row.specs.Modes.{meaning};
ghost use Rattle.waiting.specs.Waiting.{lowest_lacking};
ghost use Rattle.agree.specs.Agrees.{agrees_by};

use row::{Mode, Row};
use seats::SeatSet;
use seats::offices::{first, touched};

// What is stored for office o is no proposal of this kind and these members, or a slow one of another number.
fn disagrees(row: Row, o: usize, mode: Mode, number: u32, net: SeatSet) -> bool
    requires { o < 16 }
    ensures { result ≡ not (agrees_by (kind_of (meaning mode)) number net.bits (stored_at (held row.entry) o)) }
{
    if !row.stored_present(o) {
        return true;
    }
    (row.stored_kind(o) != u32::from(u8::from(mode)))
        | (row.stored_members(o) != net)
        | ((mode == Mode::Slow) & (row.stored_number(o) != number))
}

// In mode fast or slow. It looks at the offices of the net view from the lowest on, and stops at the first without.
pub fn lowest_lacking(row: Row) -> Option<u8>
    requires { is_none (held row).mode ≡ false }
    ensures lowest { unwrap_or result 16 ≡ lowest_lacking (held row.entry) }
    ensures office { IfSome result (λ o. o < 16) }
{
    let mode = row.mode();
    let net = row.net();
    let number = row.number();
    let offices = touched(net);
    let mut left = offices.bits;
    // The offices left are bits of a number, and no iterator of std goes over bits.
    while let Some(o) = first(left) {
        if disagrees(row, usize::from(o), mode, number, net) {
            return Some(o);
        }
        left &= left - 1;
    }
    None
}
