// A seat's state, and the checks that a start notice or a view meets in it once it is read: 8 to 10 and 14 to 16.
ghost use Rattle.std.specs.Prelude.{◌≡◌};
ghost use Rattle.laws.specs.Checks.{first_of};
ghost use Rattle.records.specs.Refusals.{refusal_of};
ghost use Rattle.desk.specs.SeatChecks.{a_notice, a_view, record_above, seat_above, lacks_seat, stale_notice};
ghost use Rattle.desk.specs.SeatChecks.{unawaited_view, stale_view, seat_checks};

use crate::seated::Seated;
use crate::views::{view_above, view_stray};
use records::numbers::LIMIT;
use records::{Notice, Refusal, View};
use seats::SeatSet;
use seats::offices::office_of;

// The seat, the last start number, the last view number, whether a change is open. Any numbers may stand in it.
#[derive(Clone, Copy, Default)]
pub struct Desk {
    pub seat: u32,
    pub start: u32,
    pub view: u32,
    pub changing: bool,
}

// Check 8 of a notice's number.
fn notice_above(n: Notice) -> bool
    ensures { result ≡ record_above (a_notice n) }
{
    LIMIT < n.start
}

impl Desk {
    // Check 8 of the seat's own numbers.
    fn above(self) -> bool
        ensures { result ≡ seat_above self }
    {
        (LIMIT < self.start) | (LIMIT < self.view)
    }

    // Check 14.
    fn stale_notice(self, n: Notice) -> bool
        ensures { result ≡ stale_notice self (a_notice n) }
    {
        (n.start <= self.start) | (n.start < self.view)
    }

    // Check 16.
    fn stale_view(self, v: View) -> bool
        ensures { result ≡ stale_view self (a_view v) }
    {
        v.number <= self.start
    }
}

impl Seated {
    // Check 9.
    #[tactic(auto, unfolding(crate::specs::SeatChecks::lacks_seat))]
    fn outside(self, members: SeatSet) -> bool
        ensures { result ≡ lacks_seat members.bits self.desk.seat }
    {
        !members.contains(self.desk.seat as u8)
    }

    // Check 15.
    #[tactic(auto, unfolding(seats::specs::Offices::office_of))]
    fn unawaited_view(self, v: View) -> bool
        ensures { result ≡ unawaited_view self.desk (a_view v) }
    {
        let starts = v.starts;
        let desk = self.desk;
        !desk.changing | (starts[usize::from(office_of(desk.seat as u8))] != desk.start)
    }

    // The first of checks 8, 9 and 14 that applies to a notice.
    #[tactic(auto, unfolding(crate::specs::SeatChecks::seat_checks, crate::specs::SeatChecks::too_high))]
    pub fn check_notice(self, n: Notice) -> Result<(), Refusal>
        ensures { refusal_of result ≡ first_of (seat_checks self.desk (a_notice n)) }
    {
        if notice_above(n) | self.desk.above() {
            return Err(Refusal::Number);
        }
        if self.outside(n.members) {
            return Err(Refusal::Members);
        }
        if self.desk.stale_notice(n) {
            return Err(Refusal::OldNotice);
        }
        Ok(())
    }

    // The first of checks 8, 9, 10, 15 and 16 that applies to a view.
    #[tactic(auto, unfolding(crate::specs::SeatChecks::seat_checks, crate::specs::SeatChecks::too_high))]
    pub fn check_view(self, v: View) -> Result<(), Refusal>
        ensures { refusal_of result ≡ first_of (seat_checks self.desk (a_view v)) }
    {
        if view_above(v) | self.desk.above() {
            return Err(Refusal::Number);
        }
        if self.outside(v.members) {
            return Err(Refusal::Members);
        }
        if view_stray(v) {
            return Err(Refusal::Stray);
        }
        if self.unawaited_view(v) {
            return Err(Refusal::UnawaitedView);
        }
        if self.desk.stale_view(v) {
            return Err(Refusal::LowView);
        }
        Ok(())
    }
}
