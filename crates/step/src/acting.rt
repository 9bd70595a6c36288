// An event in the row of its room, once every check but 11, 12 and 13 is passed: refused, or accepted. Inner to the
// layer of the step.
ghost use Rattle.std.specs.Prelude.{length, ◌≡◌};
ghost use Rattle.laws.specs.Checks.{first_of};
ghost use Rattle.rules.specs.Refusals.{a_report, a_proposal, form_checks, form_refusal};
ghost use Rattle.events.specs.Events.{event_held};
ghost use Rattle.row.specs.Row.{state_of};
ghost use Rattle.row.specs.Held.{held_mut};
ghost use Rattle.records.specs.Refusals.{refusal_of};
ghost use Rattle.step.specs.Answers.{written_of};
ghost use Rattle.step.specs.Step.{Ready, ReadyRow, Stepped, SteppedRow, act_row};

use crate::refusals;
use act::on_proposal::act_on_proposal;
use act::on_report::act_on_report;
use event_parts::Output;
use events::{Event, What};
use records::{Proposal, Refusal, Report};
use row::RowMut;

// A report and a proposal each have a function: one for both would ask each for its checks and its rule, with their
// contracts, and be no plainer.
fn act_report(row: &mut RowMut, report: Report, out: &mut Output) -> Result<usize, Refusal>
    requires { ReadyRow row.old out.old }
    ensures { SteppedRow (a_report report) row.old out.old (refusal_of result) (written_of result)
        row.new out.new }
{
    refusals::report(row.get(), report)?;
    act_on_report(row, report, out);
    Ok(out.at)
}

fn act_proposal(row: &mut RowMut, proposal: Proposal, out: &mut Output) -> Result<usize, Refusal>
    requires { ReadyRow row.old out.old × (first_of (form_checks (held_mut row.old).own proposal) ≡ 0) }
    ensures { SteppedRow (a_proposal proposal) row.old out.old (refusal_of result) (written_of result)
        row.new out.new }
{
    refusals::proposal(row.get(), &proposal)?;
    act_on_proposal(row, proposal, out);
    Ok(out.at)
}

// What the event is picks the rule.
pub fn act_event(state: &mut [u32], event: Event, out: &mut [u8]) -> Result<usize, Refusal>
    requires { Ready state.old (length out.old)
        × (form_refusal (state_of state.old).own (event_held event).what ≡ 0) }
    ensures { Stepped event.room (act_row state.old (event_held event).what) out.old
        (refusal_of result) (written_of result) state.new out.new }
{
    let mut row = RowMut { words: state };
    let mut out = Output {
        bytes: out,
        at: 0,
        room: event.room,
    };
    match event.what {
        What::Report(report) => act_report(&mut row, report, &mut out),
        What::Proposal(proposal) => act_proposal(&mut row, proposal, &mut out),
    }
}
