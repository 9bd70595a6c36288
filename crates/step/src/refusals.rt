// Checks 11 to 13 on an event, in the row of its room. For 13, where a number that the event builds on is so near to L
// that it could make one above, the event is tried on a copy of the row; which room it is does not count there.
ghost use Rattle.std.specs.Prelude.{◌≡◌, true};
ghost use Rattle.rules.specs.Rules.{report_rule, proposal_rule};
ghost use Rattle.laws.specs.Checks.{first_of};
ghost use Rattle.laws.specs.Upd.{ifb};
ghost use Rattle.records.specs.Refusals.{refusal_of};
ghost use Rattle.rules.specs.Refusals.{well_formed, form_checks, proposal_checks, a_report, a_proposal, act_of};
ghost use Rattle.row.specs.Held.{held};

use crate::checks::{ROOM, made_within, state_refusal};
use act::on_proposal::act_on_proposal;
use act::on_report::{act_on_change, is_repeat};
use event_parts::Output;
use records::{Proposal, Refusal, Report};
use row::{LOW, Row, RowMut};

// Check 13 on a report: it makes no number above L. A repeat makes none. The try at the end is that on a proposal but
// for the rule; one function for both would take the rule as a closure, its contract said once more: no plainer.
fn report_within(row: Row, r: Report) -> bool
    requires { well_formed (held row) ≡ true }
    ensures { result ≡ well_formed (report_rule (held row.entry) r).state }
{
    if row.is_capped() {
        return true;
    }
    if is_repeat(row, r) {
        return true;
    }
    let mut words = [0u32; row::WORDS];
    let mut bytes = [0u8; ROOM];
    row::changes::copy(row.words, &mut words);
    let mut tried = RowMut { words: &mut words };
    let mut out = Output {
        bytes: &mut bytes,
        at: 0,
        room: 0,
    };
    act_on_change(&mut tried, r, &mut out);
    made_within(tried.get())
}

// Check 13 on a proposal that passes all others. One of other members than the net view is only stored.
fn proposal_within(row: Row, p: &Proposal) -> bool
    requires { (well_formed (held row) ≡ true)
        × (first_of (proposal_checks (held row) p.now) ≡ 0) }
    ensures { result ≡ well_formed (proposal_rule (held row.entry) p.now).state }
{
    if p.members != row.net() {
        return true;
    }
    if (p.start <= LOW) & (p.number <= LOW) & row.is_capped() {
        return true;
    }
    let mut words = [0u32; row::WORDS];
    let mut bytes = [0u8; ROOM];
    row::changes::copy(row.words, &mut words);
    let mut tried = RowMut { words: &mut words };
    let mut out = Output {
        bytes: &mut bytes,
        at: 0,
        room: 0,
    };
    act_on_proposal(&mut tried, *p, &mut out);
    made_within(tried.get())
}

// Check 13, by what was found of it.
fn ceiling(within: bool) -> Result<(), Refusal>
    ensures { refusal_of result ≡ ifb within 0 13 }
{
    if within {
        Ok(())
    } else {
        Err(Refusal::Ceiling)
    }
}

// The refusal of a report.
pub fn report(row: Row, r: Report) -> Result<(), Refusal>
    requires { well_formed (held row) ≡ true }
    ensures { refusal_of result ≡ (act_of (held row.entry) (a_report r)).refusal }
{
    ceiling(report_within(row, r))
}

// The same of a proposal that passes 6 to 10 and 19.
pub fn proposal(row: Row, p: &Proposal) -> Result<(), Refusal>
    requires { (well_formed (held row) ≡ true)
        × (first_of (form_checks (held row).own p.now) ≡ 0) }
    ensures { refusal_of result ≡ (act_of (held row.entry) (a_proposal p.now)).refusal }
{
    state_refusal(row, p)?;
    ceiling(proposal_within(row, p))
}
