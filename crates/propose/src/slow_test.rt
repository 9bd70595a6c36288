// The slow test, on the row of an office.
ghost use Rattle.rules.specs.Rules.{proposes_slow, slow_test};
ghost use Rattle.row.specs.Held.{held_mut};
ghost use Rattle.event_parts.specs.Done.{Done, HasRoom};
ghost use Rattle.event_parts.specs.Bounds.{early, reach, Bounded};

use crate::own_proposals::{keep_own, own_proposal};
use crate::slow_call::slow_called;
use crate::slow_look::{look_at_all, slow_number};
use event_parts::{Output, opens};
use records::InRoom;
use row::{Mode, RowMut};

fn proposes_slow(row: &mut RowMut, out: &mut Output)
    requires { Bounded reach (held_mut row.old) × HasRoom proposes_slow row.old out.old }
    ensures { Done proposes_slow row.old out.old row.new out.new }
{
    let held = row.get();
    let n = slow_number(held.number(), look_at_all(held));
    let p = own_proposal(held, Mode::Slow, n);
    keep_own(row, Mode::Slow, p);
    out.write(InRoom {
        room: out.room,
        record: p,
    });
}

// Where no agreement is under way the start number rises first.
pub fn slow_test(row: &mut RowMut, out: &mut Output)
    requires { Bounded early (held_mut row.old) × HasRoom slow_test row.old out.old }
    ensures { Done slow_test row.old out.old row.new out.new }
{
    if row.get().mode() == Mode::None {
        opens(row, out);
        proposes_slow(row, out);
        return;
    }
    if slow_called(row.get()) {
        proposes_slow(row, out);
    }
}
