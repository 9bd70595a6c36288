// The end of a round, on the row of an office: the view is current, and the proposals that it counted are gone.
ghost use Rattle.std.specs.Prelude.{◌≡◌, ◌<◌};
ghost use Rattle.rules.specs.Rules.{view_of, concluded};
ghost use Rattle.row.specs.Held.{held_mut};
ghost use Rattle.row.specs.Moved.{Moved};
ghost use Rattle.agree.specs.Emptied.{emptying, emptied};

use event_parts::counted;
use records::View;
use row::{Mode, RowMut};
use seats::SeatSet;
use seats::offices::serves;

// The used number of office o becomes its proposal's number, and its stored proposal becomes nothing.
fn empty(row: &mut RowMut, o: usize)
    requires { o < 16 }
    ensures { Moved (emptying o) row.old row.new }
{
    let held = row.get();
    let n = counted(held.stored_present(o), held.stored_number(o));
    row.set_used(o, n);
    row.clear_stored(o);
}

fn empty_all(row: &mut RowMut, net: SeatSet)
    requires { net ≡ (held_mut row.old).net }
    ensures { Moved (emptied 16) row.old row.new }
{
    for o in 0..16 {
        if serves(net, o as u8) {
            empty(row, o);
        }
    }
}

pub fn conclude(row: &mut RowMut, view: View)
    requires { view ≡ view_of (held_mut row.old) }
    ensures { Moved concluded row.old row.new }
{
    let net = row.get().net();
    empty_all(row, net);
    row.set_mode(Mode::None);
    row.put_view(view);
}
