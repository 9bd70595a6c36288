// What an accepted report does: the rule on the row of words of one office in one room, changed in place, and the
// records written behind one another.
ghost use Rattle.std.specs.Prelude.{true, ◌≡◌};
ghost use Rattle.rules.specs.Rules.{net_after, with_net, repeats, seated, change_rule, report_rule};
ghost use Rattle.records.specs.Numbers.{limit};
ghost use Rattle.rules.specs.Refusals.{well_formed};
ghost use Rattle.row.specs.Held.{held, held_mut};
ghost use Rattle.event_parts.specs.Done.{Done, HasFullRoom, HasRoom};
ghost use Rattle.event_parts.specs.Bounds.{Bounded};
ghost use Rattle.event_parts.specs.Parts.{fast_round};

use crate::round_tests::tests;
use event_parts::{Output, opens};
use propose::fast::proposes_fast;
use records::Report;
use row::{Row, RowMut};
use seats::SeatSet;
use seats::offices::serves;

// A report at an office with a seat in the net view.
fn fast_round(row: &mut RowMut, out: &mut Output)
    requires { Bounded limit (held_mut row.old) × HasRoom fast_round row.old out.old
        × (seated (held_mut row.old) ≡ true) }
    ensures { Done fast_round row.old out.old row.new out.new }
{
    opens(row, out);
    proposes_fast(row, out);
    tests(row, out);
}

// Step 1: the net view with joining, then without leaving.
fn net_after(net: SeatSet, r: Report) -> SeatSet
    ensures { result.bits ≡ net_after net.bits r }
{
    net.union(r.joining).without(r.leaving)
}

// A report that leaves the net view equal to what it was.
pub fn is_repeat(row: Row, r: Report) -> bool
    ensures { result ≡ repeats (held row.entry) r }
{
    let old = row.net();
    let net = net_after(old, r);
    net == old
}

// A report that is no repeat.
pub fn act_on_change(row: &mut RowMut, r: Report, out: &mut Output)
    requires { (well_formed (held_mut row.old) ≡ true) × HasFullRoom out.old }
    ensures { Done (λ u. change_rule (with_net u (net_after u.net.bits r))) row.old out.old
        row.new out.new }
{
    let held = row.get();
    let old = held.net();
    let net = net_after(old, r);
    let own = held.own();
    row.set_net(net);
    if !serves(net, own) {
        return;
    }
    fast_round(row, out);
}

// A repeat does nothing.
pub fn act_on_report(row: &mut RowMut, r: Report, out: &mut Output)
    requires { (well_formed (held_mut row.old) ≡ true) × HasFullRoom out.old }
    ensures { Done (λ u. report_rule u r) row.old out.old row.new out.new }
{
    if is_repeat(row.get(), r) {
        return;
    }
    act_on_change(row, r, out);
}
