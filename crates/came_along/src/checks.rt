// The checks behind a sheet: 8, 10 and 17 of what is asked, 4, 6 and 8 of a record.
ghost use Rattle.std.specs.Prelude.{◌≡◌, ◌<◌, length, IfOk};
ghost use Rattle.laws.specs.Checks.{first_of};
ghost use Rattle.seats.specs.Seats.{seat_count};
ghost use Rattle.records.specs.Layout.{sync_length, decode_sync};
ghost use Rattle.records.specs.Refusals.{refusal_of};
ghost use Rattle.sheet.specs.Sheet.{no_sheet, asked_above, ask_checks, no_seat, sync_above, sync_checks};

use desk::views::{view_above, view_stray};
use record_bytes::read;
use records::numbers::LIMIT;
use records::{Refusal, Sync, View, layout};
use seats::SEATS;

// The most records of a sheet, and their bytes.
const SHEET_RECORDS: usize = 512;

const SHEET_LIMIT: usize = SHEET_RECORDS * layout::SYNC_LENGTH;

// What a sheet is asked for: a view, and one's own previous view number.
#[derive(Clone, Copy)]
pub struct Asked {
    pub view: View,
    pub previous: u32,
}

// Check 17 of a sheet of this length.
#[tactic(auto, unfolding(sheet::specs::Sheet::no_sheet))]
fn no_sheet(length: usize) -> bool
    ensures { result ≡ no_sheet length }
{
    (SHEET_LIMIT < length) | (length % layout::SYNC_LENGTH != 0)
}

impl Asked {
    // Check 8.
    #[tactic(auto, unfolding(sheet::specs::Sheet::asked_above))]
    fn above(self) -> bool
        ensures { result ≡ asked_above self.view self.previous }
    {
        view_above(self.view) | (LIMIT < self.previous)
    }

    // The first of checks 8, 10 and 17 that applies, of a sheet of this length.
    #[tactic(auto, unfolding(sheet::specs::Sheet::ask_checks))]
    pub fn check(self, length: usize) -> Result<(), Refusal>
        ensures { refusal_of result ≡ first_of (ask_checks self.view self.previous length) }
    {
        if self.above() {
            return Err(Refusal::Number);
        }
        if view_stray(self.view) {
            return Err(Refusal::Stray);
        }
        if no_sheet(length) {
            return Err(Refusal::Sheet);
        }
        Ok(())
    }
}

// Check 6 of a record.
fn no_seat(sync: Sync) -> bool
    ensures { result ≡ no_seat sync }
{
    SEATS <= sync.seat
}

// Check 8 of a record.
fn sync_above(sync: Sync) -> bool
    ensures { result ≡ sync_above sync }
{
    (LIMIT < sync.start) | (LIMIT < sync.previous)
}

// A record of a sheet, by the first of checks 4, 6 and 8 that applies. Of its length, the reader refuses a mark alone.
#[tactic(auto, using(crate::proofs::Reading::record_laws))]
pub fn read_record(bytes: &[u8]) -> Result<Sync, Refusal>
    requires { length bytes.now ≡ sync_length }
    ensures refused { refusal_of result ≡ first_of (sync_checks bytes.now) }
    ensures read { IfOk result (λ s. s ≡ decode_sync bytes.now) }
    ensures one_of_64 { IfOk result (λ s. s.seat < seat_count) }
{
    let sync = read::<Sync>(bytes)?;
    if no_seat(sync) {
        return Err(Refusal::Sender);
    }
    if sync_above(sync) {
        return Err(Refusal::Number);
    }
    Ok(sync)
}
