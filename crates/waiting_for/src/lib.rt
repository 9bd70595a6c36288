// Whom an office waits for in a room, asked of any words, which are only read; waiting_for is open to every layer
// above.
#![tactic(auto)]

ghost use Rattle.std.specs.Prelude.{◌≡◌, true, ◌<◌};
ghost use Rattle.rules.specs.Refusals.{well_formed};
ghost use Rattle.row.specs.Held.{held};
ghost use Rattle.waiting.specs.Waiting.{for_nobody, waiting_for};
ghost use Rattle.waiting_for.specs.Table.{waiting_words};

use agree::lacking::lowest_lacking;
use records::numbers::room_above;
use row::{Mode, Row, table};
use seats::offices::serves;
pub use waiting::Waiting;

// Mode none, or no seat of this office in the net view.
fn for_nobody(row: Row) -> bool
    requires { (held row).own < 16 }
    ensures { result ≡ for_nobody (held row.entry) }
{
    let idle = row.mode() == Mode::None;
    let seated = serves(row.net(), row.own());
    idle | !seated
}

// The answer of one room's row.
fn in_row(row: Row) -> Waiting
    requires { well_formed (held row) ≡ true }
    ensures { result ≡ waiting_for (held row.entry) }
{
    if for_nobody(row) {
        return Waiting::Nobody;
    }
    match lowest_lacking(row) {
        Some(o) => Waiting::For(o),
        None => Waiting::Met,
    }
}

pub fn waiting_for(table: &[u32], room: u8) -> Waiting
    ensures { result ≡ waiting_words table.now room }
{
    let sound = table::is_sound(table);
    let above = room_above(room);
    if !sound {
        return Waiting::Malformed;
    }
    if above {
        return Waiting::NoRoom;
    }
    in_row(table::row_in(table, room))
}
