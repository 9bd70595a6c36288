// What an accepted proposal does: the rule on the row of words of one office in one room, changed in place, and the
// records written behind one another.
ghost use Rattle.std.specs.Prelude.{true, ◌≡◌, ◌≤◌, ◌<◌};
ghost use Rattle.rules.specs.Rules.{proposal_rule};
ghost use Rattle.records.specs.Numbers.{limit};
ghost use Rattle.rules.specs.Refusals.{well_formed};
ghost use Rattle.row.specs.Held.{held_mut};
ghost use Rattle.event_parts.specs.Done.{Done, HasFullRoom};

use crate::round_tests::tests;
use event_parts::{Output, receive};
use records::Proposal;
use row::RowMut;

pub fn act_on_proposal(row: &mut RowMut, p: Proposal, out: &mut Output)
    requires row { (well_formed (held_mut row.old) ≡ true) × HasFullRoom out.old }
    requires sender_bound { (p.sender < 16) × (p.start ≤ limit) × (p.number ≤ limit) }
    ensures { Done (λ u. proposal_rule u p) row.old out.old row.new out.new }
{
    let net = row.get().net();
    receive(row, p);
    if p.members != net {
        return;
    }
    tests(row, out);
}
