// Taking a start notice or a view.
ghost use Rattle.std.specs.Prelude.{◌≡◌};
ghost use Rattle.laws.specs.Checks.{first_of};
ghost use Rattle.records.specs.Refusals.{refusal_of};
ghost use Rattle.records.specs.Layout.{check_own, notice_mark, notice_length};
ghost use Rattle.desk.specs.SeatChecks.{SeatRecord, a_notice, a_view, seat_checks};
ghost use Rattle.desk.specs.Hearing.{after_record, hear_of, heard_as, left_by, told_checks};

use crate::checks::Desk;
use crate::seated::Seated;
use record_bytes::read;
use records::numbers::room_above;
use records::{InRoom, Notice, Refusal, View};

// What an office tells its seats.
trait Told: Copy {
    ghost told: { Self → SeatRecord };

    // The first of the checks that applies to it.
    fn check(self, seat: Seated) -> Result<(), Refusal>
        ensures { refusal_of result ≡ first_of (seat_checks seat.desk (told self)) };

    // What it leaves where it is accepted.
    fn after(self, desk: Desk) -> Desk
        ensures { result ≡ after_record desk (told self) };
}

impl Told for Notice {
    ghost told = { a_notice };

    fn check(self, seat: Seated) -> Result<(), Refusal> {
        seat.check_notice(self)
    }

    // It sets the start number and opens a change.
    #[tactic(auto, unfolding(crate::specs::Hearing::after_record))]
    fn after(self, desk: Desk) -> Desk {
        Desk {
            start: self.start,
            changing: true,
            ..desk
        }
    }
}

impl Told for View {
    ghost told = { a_view };

    fn check(self, seat: Seated) -> Result<(), Refusal> {
        seat.check_view(self)
    }

    // It sets the view number and closes the change.
    #[tactic(auto, unfolding(crate::specs::Hearing::after_record))]
    fn after(self, desk: Desk) -> Desk {
        Desk {
            view: self.number,
            changing: false,
            ..desk
        }
    }
}

// A record that was read, in its room.
#[tactic(auto, using(crate::proofs::HearingLaws::take_laws))]
fn take<R: Told>(seat: Seated, told: InRoom<R>) -> Result<Desk, Refusal>
    ensures { heard_as seat.desk result
        ≡ left_by seat.desk (R.told told.record) (first_of (told_checks seat.desk told.room (R.told told.record))) }
{
    if room_above(told.room) {
        return Err(Refusal::Room);
    }
    told.record.check(seat)?;
    Ok(told.record.after(seat.desk))
}

// Bytes that have no notice's mark: the reader of views has the word.
#[tactic(auto, using(crate::proofs::HearingLaws::view_laws))]
fn hear_view(seat: Seated, bytes: &[u8]) -> Result<Desk, Refusal>
    requires { 4 ≡ check_own notice_mark notice_length bytes.now }
    ensures { heard_as seat.desk result ≡ hear_of seat.desk bytes.now }
{
    take(seat, read::<InRoom<View>>(bytes)?)
}

// A start notice or a view, as its bytes.
#[tactic(auto, using(crate::proofs::HearingLaws::hear_laws))]
pub fn hear(desk: Desk, bytes: &[u8]) -> Result<Desk, Refusal>
    ensures { heard_as desk result ≡ hear_of desk bytes.now }
{
    let seat = desk.seated()?;
    match read::<InRoom<Notice>>(bytes) {
        Ok(told) => take(seat, told),
        Err(e) if e == Refusal::Mark => hear_view(seat, bytes),
        Err(e) => Err(e),
    }
}
