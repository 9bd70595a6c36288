// The view that the stored proposals of an agreement give, on the row of an office.
ghost use Rattle.std.specs.Prelude.{◌≡◌, ◌+◌, ◌<◌, ◌^◌};
ghost use Rattle.laws.specs.Fin.{largest};
ghost use Rattle.rules.specs.Rules.{start_of, view_of};
ghost use Rattle.row.specs.Held.{held};
ghost use Rattle.agree.specs.Starts.{lay_of, laid_of};

use event_parts::counted;
use records::View;
use row::Row;
use seats::SeatSet;
use seats::offices::serves;

// The start numbers of a view, 0 for an office without a seat in the members, and the largest of them.
#[derive(Clone, Copy)]
pub struct Laid {
    pub starts: [u32; 16],
    pub largest: u32,
}

// The start number of office o, 0 where it has no seat in the net view.
fn start_at(row: Row, net: SeatSet, o: usize) -> u32
    requires { (net ≡ (held row).net) × (o < 16) }
    ensures { result ≡ start_of (held row.entry) o }
{
    counted(serves(net, o as u8), row.stored_start(o))
}

impl Laid {
    // One office more: its number copied, which the largest takes in.
    fn lay(&mut self, o: usize, n: u32)
        requires { o < 16 }
        ensures { self.new ≡ lay_of self.old o n }
    {
        self.starts[o] = n;
        self.largest = n.max(self.largest);
    }
}

// The start numbers of the net view's offices. The largest is a running value: at each office that of the numbers
// copied so far, 0 before the first.
fn lay_starts(row: Row, net: SeatSet) -> Laid
    requires { net ≡ (held row).net }
    ensures { result ≡ laid_of 16 (held row.entry) }
{
    let mut laid = Laid {
        starts: [0; 16],
        largest: 0,
    };
    for o in 0..16 {
        laid.lay(o, start_at(row, net, o));
    }
    laid
}

pub fn view_of(row: Row) -> View
    requires { largest 16 (start_of (held row)) + 1 < 2 ^ 32 }
    ensures { result ≡ view_of (held row.entry) }
{
    let net = row.net();
    let laid = lay_starts(row, net);
    let starts = laid.starts;
    View {
        number: 1 + laid.largest,
        members: net,
        starts,
    }
}
