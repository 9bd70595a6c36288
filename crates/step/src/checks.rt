// Checks 2, 3 and 11 to 13. The reading call answers the others.
ghost use Rattle.std.specs.Prelude.{◌≡◌, ◌<◌};
ghost use Rattle.laws.specs.Checks.{first_of};
ghost use Rattle.records.specs.Refusals.{refusal_of};
ghost use Rattle.rules.specs.Refusals.{not_above, used_ahead, state_checks};
ghost use Rattle.row.specs.Held.{held};
ghost use Rattle.step.specs.Checks.{unready, made_within};

use records::numbers::LIMIT;
use records::{Proposal, Refusal, layout};
use row::Row;

// The output room that every event has enough of: a start notice and two proposals.
pub const ROOM: usize = layout::NOTICE_LENGTH + 2 * layout::PROPOSAL_LENGTH;

// Checks 2, of every room, and 3.
pub fn unready(table: &[u32], output: usize) -> Result<(), Refusal>
    ensures { refusal_of result ≡ unready table.now output }
{
    if !row::table::is_sound(table) {
        return Err(Refusal::State);
    }
    if output < ROOM {
        return Err(Refusal::Output);
    }
    Ok(())
}

// Check 11.
fn not_above(row: Row, p: &Proposal) -> bool
    requires { p.now.sender < 16 }
    ensures { result ≡ not_above (held row.entry) p.now }
{
    p.number <= row.accepted(p.sender as usize)
}

// Check 12.
fn used_ahead(row: Row, p: &Proposal) -> bool
    requires { (held row).own < 16 }
    ensures { result ≡ used_ahead (held row.entry) p.now }
{
    let own = row.own() as usize;
    row.number() < p.used[own]
}

// Checks 11 and 12: the first that applies.
pub fn state_refusal(row: Row, p: &Proposal) -> Result<(), Refusal>
    requires { ((held row).own < 16) × (p.now.sender < 16) }
    ensures { refusal_of result ≡ first_of (state_checks (held row.entry) p.now) }
{
    if not_above(row, p) {
        return Err(Refusal::OldProposal);
    }
    if used_ahead(row, p) {
        return Err(Refusal::Unreached);
    }
    Ok(())
}

// Check 13, on the row that an event leaves: of its numbers only these three can be new ones.
pub fn made_within(row: Row) -> bool
    ensures { result ≡ made_within (held row.entry) }
{
    (row.start() <= LIMIT) & (row.number() <= LIMIT) & (row.view_number() <= LIMIT)
}
