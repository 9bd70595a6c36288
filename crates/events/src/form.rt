// Checks 6 to 10 and 19 of a proposal, which ask for an office and for no state.
ghost use Rattle.std.specs.Prelude.{◌≡◌, ◌<◌};
ghost use Rattle.laws.specs.Checks.{first_of};
ghost use Rattle.records.specs.Refusals.{refusal_of};
ghost use Rattle.rules.specs.Refusals.{wrong_sender, wrong_kind, wrong_number, without_seat, stray_used};
ghost use Rattle.rules.specs.Refusals.{uses_itself, form_checks};

use records::numbers::{LIMIT, above_limit, stray_number};
use records::{FAST, Proposal, Refusal, SLOW};
use seats::offices::serves;

// Check 6.
#[tactic(auto, unfolding(rules::specs::Refusals::wrong_sender))]
fn wrong_sender(office: u8, p: &Proposal) -> bool
    ensures { result ≡ wrong_sender office p.now }
{
    (15 < p.sender) | (p.sender == office)
}

// Check 7.
#[tactic(auto, unfolding(rules::specs::Refusals::wrong_kind))]
fn wrong_kind(p: &Proposal) -> bool
    ensures { result ≡ wrong_kind p.now }
{
    !matches!(p.kind, FAST | SLOW)
}

// Check 8.
#[tactic(auto, unfolding(rules::specs::Refusals::wrong_number))]
fn wrong_number(p: &Proposal) -> bool
    ensures { result ≡ wrong_number p.now }
{
    (p.start == 0) | (LIMIT < p.start) | (p.number == 0) | (LIMIT < p.number) | above_limit(&p.used)
}

// Check 9.
#[tactic(auto, unfolding(rules::specs::Refusals::without_seat))]
fn without_seat(office: u8, p: &Proposal) -> bool
    ensures { result ≡ without_seat office p.now }
{
    !serves(p.members, p.sender) | !serves(p.members, office)
}

// Check 10.
#[tactic(auto, unfolding(rules::specs::Refusals::stray_used))]
fn stray_used(p: &Proposal) -> bool
    ensures { result ≡ stray_used p.now }
{
    stray_number(p.members, &p.used)
}

// Check 19.
#[tactic(auto, unfolding(rules::specs::Refusals::uses_itself))]
fn uses_itself(p: &Proposal) -> bool
    requires { p.now.sender < 16 }
    ensures { result ≡ uses_itself p.now }
{
    p.number <= p.used[usize::from(p.sender)]
}

// Checks 6 to 10 and 19: the first that applies.
pub fn form_refusal(office: u8, p: &Proposal) -> Result<(), Refusal>
    ensures { refusal_of result ≡ first_of (form_checks office p.now) }
{
    if wrong_sender(office, p) {
        return Err(Refusal::Sender);
    }
    if wrong_kind(p) {
        return Err(Refusal::Kind);
    }
    if wrong_number(p) {
        return Err(Refusal::Number);
    }
    if without_seat(office, p) {
        return Err(Refusal::Members);
    }
    if stray_used(p) {
        return Err(Refusal::Stray);
    }
    if uses_itself(p) {
        return Err(Refusal::SelfUse);
    }
    Ok(())
}
