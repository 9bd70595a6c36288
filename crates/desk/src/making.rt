// Making a seat.
ghost use Rattle.std.specs.Prelude.{◌≡◌};
ghost use Rattle.desk.specs.Hearing.{fresh_desk, made_desk, heard_as};

use crate::checks::Desk;
use records::Refusal;
use seats::SEATS;

#[tactic(auto, unfolding(crate::specs::Hearing::fresh_desk))]
fn fresh_desk(seat: u8) -> Desk
    ensures { result ≡ fresh_desk seat }
{
    Desk {
        seat: u32::from(seat),
        ..Desk::default()
    }
}

// A fresh seat; above 63 it is refused.
#[tactic(auto, using(crate::proofs::HearingLaws::seat_6, crate::proofs::HearingLaws::seat_0))]
pub fn fresh_seat(seat: u8) -> Result<Desk, Refusal>
    ensures { heard_as (fresh_desk 0) result ≡ made_desk seat }
{
    if SEATS <= seat {
        return Err(Refusal::Sender);
    }
    Ok(fresh_desk(seat))
}
