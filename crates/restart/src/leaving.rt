// What must happen before a record may leave: whether a mark is due, and which.
ghost use Rattle.std.specs.Prelude.{◌≡◌, IfOk, Some, length, get_or};
ghost use Rattle.laws.specs.Checks.{first_of};
ghost use Rattle.laws.specs.Fin.{largest};
ghost use Rattle.records.specs.Refusals.{refusal_of};
ghost use Rattle.records.specs.Layout.{mark_of};
ghost use Rattle.rules.specs.Rules.{notice, proposal, view};
ghost use Rattle.rules.specs.MarkFile.{next_high};
ghost use Rattle.rules.specs.Leaving.{largest_in};
ghost use Rattle.restart.specs.Before.{length_as, leaving_kind, read_largest, short_output, cut_short};
ghost use Rattle.restart.specs.Before.{leaves_above, front_checks, mark_for, due_of, before_of, out_before};

use crate::marks::GAP;
use record_bytes::{Record, write};
use records::numbers::LIMIT;
use records::{High, InRoom, Notice, Proposal, Refusal, View, layout, mark_value};

// The length of the record in front, and the last mark once it may leave.
#[derive(Clone, Copy)]
pub struct DueMark {
    pub length: usize,
    pub mark: u32,
}

// The records that leave.
#[derive(Clone, Copy)]
pub enum Kind {
    Notice,
    Proposal,
    View,
}

impl Kind {
    // The length of its records.
    fn length(self) -> usize
        ensures { result ≡ length_as (Some self) }
    {
        match self {
            Kind::Notice => layout::NOTICE_LENGTH,
            Kind::Proposal => layout::PROPOSAL_LENGTH,
            Kind::View => layout::VIEW_LENGTH,
        }
    }
}

// The kind that a mark's value calls for; any other mark has none.
#[tactic(auto, unfolding(crate::specs::Before::leaving_kind))]
fn kind_for(value: u16) -> Option<Kind>
    ensures { result ≡ leaving_kind value }
{
    match value {
        layout::NOTICE => Some(Kind::Notice),
        layout::PROPOSAL => Some(Kind::Proposal),
        layout::VIEW => Some(Kind::View),
        _ => None,
    }
}

// The kind of the record in front, by its mark.
#[tactic(auto, unfolding(crate::specs::Before::leaving_kind))]
fn kind_of(rest: &[u8]) -> Option<Kind>
    ensures { result ≡ leaving_kind (mark_of rest.now) }
{
    kind_for(mark_value(rest)?)
}

// The largest of sixteen numbers.
fn largest_of(numbers: &[u32; 16]) -> u32
    ensures { result ≡ largest 16 (λ o. get_or numbers.now o 0) }
{
    numbers.iter().copied().max().unwrap_or(0)
}

// A start notice has one number.
fn notice_largest(n: Notice) -> u32
    ensures { result ≡ largest_in (notice n) }
{
    n.start
}

// Of a proposal the used numbers count too.
fn proposal_largest(p: Proposal) -> u32
    ensures { result ≡ largest_in (proposal p) }
{
    p.start.max(p.number).max(largest_of(&p.used))
}

// Of a view the other offices' start numbers count too.
fn view_largest(v: View) -> u32
    ensures { result ≡ largest_in (view v) }
{
    v.number.max(largest_of(&v.starts))
}

// The largest number of a record of a kind.
#[tactic(auto, unfolding(crate::specs::Before::read_largest))]
fn largest_in(kind: Kind, bytes: &[u8]) -> u32
    ensures { result ≡ read_largest kind bytes.now }
{
    match kind {
        Kind::Notice => notice_largest(InRoom::<Notice>::decode(bytes).record),
        Kind::Proposal => proposal_largest(InRoom::<Proposal>::decode(bytes).record),
        Kind::View => view_largest(InRoom::<View>::decode(bytes).record),
    }
}

// Check 3.
fn short_output(output: usize) -> bool
    ensures { result ≡ short_output output }
{
    output < layout::HIGH_LENGTH
}

// Check 5.
fn cut_short(length: usize, size: usize) -> bool
    ensures { result ≡ cut_short length size }
{
    size < length
}

// Check 8.
fn leaves_above(last: u32, largest: u32) -> bool
    ensures { result ≡ leaves_above last largest }
{
    (LIMIT < last) | (LIMIT < largest)
}

// Checks 3, 4 and 5: the first that applies, else the kind of the record in front.
#[tactic(auto, unfolding(crate::specs::Before::front_checks))]
fn front_kind(output: usize, kind: Option<Kind>, size: usize) -> Result<Kind, Refusal>
    ensures refused { refusal_of result ≡ first_of (front_checks output (length_as kind) size) }
    ensures kind { IfOk result (λ k. kind ≡ Some k) }
{
    if short_output(output) {
        return Err(Refusal::Output);
    }
    let kind = kind.ok_or(Refusal::Mark)?;
    if cut_short(kind.length(), size) {
        return Err(Refusal::Length);
    }
    Ok(kind)
}

// The mark that is due where this number is above the last.
fn next_high(largest: u32) -> u32
    ensures { result ≡ next_high largest }
{
    if largest < LIMIT - GAP {
        largest + GAP
    } else {
        LIMIT
    }
}

// The last mark once a record with this largest number may leave.
fn mark_for(last: u32, largest: u32) -> u32
    ensures { result ≡ mark_for last largest }
{
    if last < largest {
        next_high(largest)
    } else {
        last
    }
}

// What is answered where the output has this length. The record in front is a part of the bytes themselves.
fn answer_for(last: u32, rest: &[u8], output: usize) -> Result<DueMark, Refusal>
    ensures { due_of result ≡ before_of last rest.now output }
{
    let kind = front_kind(output, kind_of(rest), rest.len())?;
    let length = kind.length();
    let largest = largest_in(kind, &rest[..length]);
    if leaves_above(last, largest) {
        return Err(Refusal::Number);
    }
    let mark = mark_for(last, largest);
    Ok(DueMark { length, mark })
}

// Any last mark, any bytes, any output. Where a mark is due it stands at the start of the output.
pub fn mark_before(last: u32, rest: &[u8], out: &mut [u8]) -> Result<DueMark, Refusal>
    ensures { (due_of result ≡ before_of last rest.now (length out.old))
        × (out.new ≡ out_before last rest.now out.old) }
{
    let found = answer_for(last, rest, out.len())?;
    let mark = found.mark;
    if last < mark {
        write(
            out,
            0,
            High {
                number: mark,
                again: mark,
            },
        );
    }
    Ok(found)
}
