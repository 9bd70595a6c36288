// The events: what the bytes of a report or a proposal say, and every check that asks for no state. read_event reads
// for an office: checks 1, 4, 5, 20, 6 to 10 and 19.
#![tactic(auto)]

ghost use Rattle.std.specs.Prelude.{◌≡◌};
ghost use Rattle.records.specs.Refusals.{refusal_of};
ghost use Rattle.records.specs.Layout.{report_mark, report_length, proposal_mark, proposal_length, room_of, check_own};
ghost use Rattle.rules.specs.Refusals.{made_of, event_of, form_refusal};
ghost use Rattle.events.specs.Events.{event_held, holding, read_event};
ghost use Rattle.events.specs.Reading.{as_read, room_read, decoded_read, formed_read};

use form::form_refusal;
use record_bytes::Record;
use records::numbers::room_above;
use records::{InRoom, Proposal, RecordKind, Refusal, Report, check_length, kind_of};
use seats::SeatSet;

// Checks 6 to 10 and 19 of a proposal.
mod form;

// What an event is.
#[derive(Clone, Copy)]
pub enum What {
    Report(Report),
    Proposal(Proposal),
}

// A report or a proposal in a room.
#[derive(Clone, Copy)]
pub struct Event {
    pub room: u8,
    pub what: What,
}

// The event of a refusal.
const NO_EVENT: Event = Event {
    room: 0,
    what: What::Report(Report {
        joining: SeatSet { bits: 0 },
        leaving: SeatSet { bits: 0 },
    }),
};

// Check 1.
#[tactic(auto, unfolding(rules::specs::Refusals::made_of))]
pub fn office_refusal(office: u8) -> Result<(), Refusal>
    ensures { refusal_of result ≡ (made_of office).refusal }
{
    if office <= 15 {
        Ok(())
    } else {
        Err(Refusal::Office)
    }
}

// Checks 6 to 10 and 19 of an event for an office: the first that applies; a report passes all.
pub fn event_refusal(office: u8, event: Event) -> Result<(), Refusal>
    ensures { refusal_of result ≡ form_refusal office (event_held event).what }
{
    match event.what {
        What::Report(_) => Ok(()),
        What::Proposal(p) => form_refusal(office, &p),
    }
}

// Check 20.
#[tactic(auto, unfolding(crate::specs::Reading::room_read))]
fn in_room(event: Event) -> Result<Event, Refusal>
    ensures { as_read result ≡ room_read event }
{
    if room_above(event.room) {
        return Err(Refusal::Room);
    }
    Ok(event)
}

// What a report says, where 4 and 5 pass. One function for both kinds would ask each for its mark, its length and its
// variant: no plainer.
fn report_in(bytes: &[u8]) -> Event
    requires { check_own report_mark report_length bytes.now ≡ 0 }
    ensures { result ≡ holding (room_of bytes.now) (event_of bytes.now) }
{
    let r = InRoom::<Report>::decode(bytes);
    Event {
        room: r.room,
        what: What::Report(r.record),
    }
}

// The same of a proposal.
fn proposal_in(bytes: &[u8]) -> Event
    requires { check_own proposal_mark proposal_length bytes.now ≡ 0 }
    ensures { result ≡ holding (room_of bytes.now) (event_of bytes.now) }
{
    let p = InRoom::<Proposal>::decode(bytes);
    Event {
        room: p.room,
        what: What::Proposal(p.record),
    }
}

// Checks 4, 5 and 20: one look at the mark says the kind and, with the length, the number by 4 and 5. No other kind
// passes 4.
fn decode_event(bytes: &[u8]) -> Result<Event, Refusal>
    ensures { as_read result ≡ decoded_read bytes.now }
{
    let Some(kind) = kind_of(bytes) else {
        return Err(Refusal::Mark);
    };
    check_length(kind.length(), bytes)?;
    match kind {
        RecordKind::Report => in_room(report_in(bytes)),
        RecordKind::Proposal => in_room(proposal_in(bytes)),
    }
}

// The checks of the form, on what was decoded.
#[tactic(auto, using(crate::proofs::ReadLaws::reason_some), unfolding(crate::specs::Reading::formed_read))]
fn formed(office: u8, event: Event) -> Result<Event, Refusal>
    ensures { as_read result ≡ formed_read office (record { refusal = 0; event = event }) }
{
    event_refusal(office, event)?;
    Ok(event)
}

// The reading call: what the bytes say, for an office.
pub fn read_event(office: u8, bytes: &[u8]) -> Result<Event, Refusal>
    ensures { as_read result ≡ read_event office bytes.now }
{
    office_refusal(office)?;
    formed(office, decode_event(bytes)?)
}

// The event that a reading gives: with a refusal an empty report of room 0.
pub fn event_given(read: Result<Event, Refusal>) -> Event
    ensures { result ≡ (as_read read).event }
{
    read.unwrap_or(NO_EVENT)
}
