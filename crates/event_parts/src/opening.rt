// A proposal arrives, the start number rises.
ghost use Rattle.std.specs.Prelude.{◌<◌};
ghost use Rattle.rules.specs.Rules.{opens};
ghost use Rattle.row.specs.Held.{held_mut};
ghost use Rattle.row.specs.Moved.{Moved};
ghost use Rattle.event_parts.specs.Done.{Done, HasRoom};
ghost use Rattle.event_parts.specs.Bounds.{reach, Bounded};
ghost use Rattle.event_parts.specs.Parts.{receiving};

use crate::output::Output;
use records::{InRoom, Notice, Proposal};
use row::RowMut;

// A proposal arrives. That its sender is an office is check 6's word, for an office: a record has any byte there.
pub fn receive(row: &mut RowMut, p: Proposal)
    requires { p.sender < 16 }
    ensures { Moved (receiving p) row.old row.new }
{
    let o = usize::from(p.sender);
    row.put_stored(o, p);
    row.set_accepted(o, p.number);
}

pub fn opens(row: &mut RowMut, out: &mut Output)
    requires { Bounded reach (held_mut row.old) × HasRoom opens row.old out.old }
    ensures { Done opens row.old out.old row.new out.new }
{
    let held = row.get();
    let start = held.view_number().max(held.start() + 1);
    let members = held.net();
    row.set_start(start);
    out.write(InRoom {
        room: out.room,
        record: Notice { start, members },
    });
}
