// Checks 4 and 5, by the mark.
ghost use Rattle.std.specs.Prelude.{◌≡◌, unwrap_or, length, eqb};
ghost use Rattle.laws.specs.Upd.{ifb};
ghost use Rattle.records.specs.Refusals.{refusal_of};
ghost use Rattle.records.specs.Layout.{mark_of, room_of, form_as, form_for, form_of, check_of};

use crate::{RecordKind, Refusal, layout};

// The value of the mark that bytes start with: two bytes as one number.
#[tactic(auto, unfolding(crate::specs::Layout::mark_of))]
pub fn mark_value(bytes: &[u8]) -> Option<u16>
    ensures { unwrap_or result 0 ≡ mark_of bytes.now }
{
    if bytes.len() < 2 {
        return None;
    }
    Some(u16::from_be_bytes([bytes[0], bytes[1]]))
}

// The room that bytes name, any byte; 0 where there is none, as the definition room_of has it.
#[tactic(auto, unfolding(crate::specs::Layout::room_of))]
pub fn room_of(bytes: &[u8]) -> u8
    ensures { result ≡ room_of bytes.now }
{
    bytes.get(layout::ROOM).copied().unwrap_or(0)
}

impl RecordKind {
    // The length of its records.
    pub fn length(self) -> usize
        ensures { result ≡ (form_as (Some self)).length }
    {
        match self {
            RecordKind::Report => layout::REPORT_LENGTH,
            RecordKind::Proposal => layout::PROPOSAL_LENGTH,
        }
    }
}

// The kind that a mark's value calls for; any other mark is no record's.
fn kind_for(value: u16) -> Option<RecordKind>
    ensures { form_as result ≡ form_for value }
{
    match value {
        layout::REPORT => Some(RecordKind::Report),
        layout::PROPOSAL => Some(RecordKind::Proposal),
        _ => None,
    }
}

// The kind of record that bytes start with, by their mark: a report or a proposal.
pub fn kind_of(bytes: &[u8]) -> Option<RecordKind>
    ensures { form_as result ≡ form_of bytes.now }
{
    kind_for(mark_value(bytes)?)
}

// Check 5: `n` bytes.
pub fn check_length(n: usize, bytes: &[u8]) -> Result<(), Refusal>
    ensures { refusal_of result ≡ ifb (eqb (length bytes.now) n) 0 5 }
{
    if bytes.len() == n {
        Ok(())
    } else {
        Err(Refusal::Length)
    }
}

// Checks 4 and 5 for a lone report or proposal.
pub fn check(bytes: &[u8]) -> Result<(), Refusal>
    ensures { refusal_of result ≡ check_of bytes.now }
{
    let Some(kind) = kind_of(bytes) else {
        return Err(Refusal::Mark);
    };
    check_length(kind.length(), bytes)
}
