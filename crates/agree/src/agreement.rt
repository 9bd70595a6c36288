// The agreement test, on the row of an office.
ghost use Rattle.std.specs.Prelude.{◌≡◌};
ghost use Rattle.rules.specs.Rules.{agreed, agreement_test};
ghost use Rattle.row.specs.Held.{held, held_mut};
ghost use Rattle.event_parts.specs.Done.{Done, HasRoom};
ghost use Rattle.event_parts.specs.Bounds.{reach, Bounded};

use crate::lacking::lowest_lacking;
use crate::new_view::view_of;
use crate::round_end::conclude;
use event_parts::Output;
use records::InRoom;
use row::{Mode, Row, RowMut};
use seats::offices::touched;

// Where nothing at all is stored for an office of the net view, which is so of most events, no proposal is looked at.
fn agreed(row: Row) -> bool
    ensures { result ≡ agreed (held row.entry) }
{
    if row.mode() == Mode::None {
        return false;
    }
    let offices = touched(row.net());
    if offices.bits & !row.present() != 0 {
        return false;
    }
    lowest_lacking(row).is_none()
}

pub fn agreement_test(row: &mut RowMut, out: &mut Output)
    requires { Bounded reach (held_mut row.old) × HasRoom agreement_test row.old out.old }
    ensures { Done agreement_test row.old out.old row.new out.new }
{
    let held = row.get();
    if !agreed(held) {
        return;
    }
    let view = view_of(held);
    conclude(row, view);
    out.write(InRoom {
        room: out.room,
        record: view,
    });
}
