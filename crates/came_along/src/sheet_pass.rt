// One pass over a sheet: the members whose record is missing, and those whose record names the number.
ghost use Rattle.std.specs.Prelude.{◌≡◌, ◌<◌};
ghost use Rattle.seats.specs.Seats.{seat_count};
ghost use Rattle.sheet.specs.Sheet.{records_on};
ghost use Rattle.came_along.specs.Pass.{is_first, counted_in, count_record, pass_of, passed_as};
ghost use Rattle.came_along.specs.Found.{found_answer};

use crate::checks::{Asked, read_record};
use records::{Refusal, Sync, layout};
use seats::SeatSet;
use seats::offices::office_of;
use sheet::Along;

// The members whose record has not come yet, and those whose record names the number.
#[derive(Clone, Copy)]
pub struct Found {
    pub missing: SeatSet,
    pub same: SeatSet,
}

impl Found {
    // Whether a record counts: its seat's has not come yet, and its start number is the view's for that seat's office.
    #[tactic(auto, unfolding(seats::specs::Offices::office_of))]
    fn is_first(self, starts: &[u32; 16], sync: Sync) -> bool
        requires { sync.seat < seat_count }
        ensures { result ≡ is_first starts.now self.missing.bits sync }
    {
        self.missing.contains(sync.seat) & (sync.start == starts[usize::from(office_of(sync.seat))])
    }

    // A record that counts: its seat is missing no more, and is among the others if it names the number.
    #[tactic(auto, using(crate::proofs::Counting::counted_laws))]
    fn counted_in(self, previous: u32, sync: Sync) -> Found
        ensures { result ≡ counted_in previous self sync }
    {
        let missing = self.missing.remove(sync.seat);
        if sync.previous != previous {
            return Found { missing, ..self };
        }
        let same = self.same.insert(sync.seat);
        Found { missing, same }
    }

    // One record more. A seat is missing until its first record that counts; a later one finds it gone.
    #[tactic(auto, unfolding(crate::specs::Pass::count_record))]
    fn count_record(self, starts: &[u32; 16], previous: u32, sync: Sync) -> Found
        requires { sync.seat < seat_count }
        ensures { result ≡ count_record starts.now previous self sync }
    {
        if self.is_first(starts, sync) {
            return self.counted_in(previous, sync);
        }
        self
    }

    // The lowest seat whose record is missing, or those whose record names the number.
    #[tactic(auto, using(crate::proofs::Exits::answer_laws))]
    pub fn answer(self) -> Along
        ensures { result ≡ found_answer self }
    {
        match self.missing.first() {
            Some(seat) => Along::Missing(seat),
            None => Along::Members(self.same),
        }
    }
}

impl Asked {
    // Each record is a part of the sheet itself; the first bad one ends the pass.
    #[tactic(auto, using(crate::proofs::Passing::pass_laws))]
    pub fn pass(self, sheet: &[u8]) -> Result<Found, Refusal>
        ensures { passed_as result ≡ pass_of self.view self.previous (records_on sheet.now) }
    {
        let starts = self.view.starts;
        let mut found = Found {
            missing: self.view.members,
            same: SeatSet::EMPTY,
        };
        for bytes in sheet.chunks_exact(layout::SYNC_LENGTH) {
            let sync = read_record(bytes)?;
            found = found.count_record(&starts, self.previous, sync);
        }
        Ok(found)
    }
}
