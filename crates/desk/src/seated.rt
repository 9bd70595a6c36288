// A desk whose seat is one of the 64: check 6.
ghost use Rattle.std.specs.Prelude.{◌≡◌, ◌<◌, ◌≤◌, IfOk, IfErr};
ghost use Rattle.seats.specs.Seats.{seat_count};
ghost use Rattle.records.specs.Refusals.{number};

use crate::checks::Desk;
use records::Refusal;
use seats::SEATS;

#[derive(Clone, Copy)]
pub struct Seated {
    pub desk: Desk,
    pub ghost one_of_64: { desk.seat < seat_count },
}

impl Desk {
    pub fn seated(self) -> Result<Seated, Refusal>
        ensures refused { IfErr result (λ e. (number e ≡ 6) × (seat_count ≤ self.seat)) }
        ensures same { IfOk result (λ s. s.desk ≡ self) }
    {
        if u32::from(SEATS) <= self.seat {
            return Err(Refusal::Sender);
        }
        Ok(Seated { desk: self })
    }
}
