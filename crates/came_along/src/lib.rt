// Who came along from the old view: the answer from a sheet of sync records, a view and one's own number.
#![tactic(auto)]

ghost use Rattle.std.specs.Prelude.{◌≡◌};
ghost use Rattle.sheet.specs.Sheet.{came_along};
ghost use Rattle.came_along.specs.Found.{answered};

use checks::Asked;
use record_bytes::read;
use records::numbers::room_above;
use records::{InRoom, Refusal, View};
use sheet_pass::Found;

// What is asked and each record of a sheet, check by check.
mod checks;

// One pass over a sheet.
mod sheet_pass;

pub use sheet::Along;

// What the records of a sheet say, where nothing is refused. The view is read first.
#[tactic(auto, using(crate::proofs::Exits::found_laws))]
fn found(sheet: &[u8], view: &[u8], previous: u32) -> Result<Found, Refusal>
    ensures { answered result ≡ came_along sheet.now view.now previous }
{
    let told = read::<InRoom<View>>(view)?;
    if room_above(told.room) {
        return Err(Refusal::Room);
    }
    let asked = Asked {
        view: told.record,
        previous,
    };
    asked.check(sheet.len())?;
    asked.pass(sheet)
}

// Any sheet, any view, any number.
pub fn came_along(sheet: &[u8], view: &[u8], previous: u32) -> Along
    ensures { result ≡ came_along sheet.now view.now previous }
{
    match found(sheet, view, previous) {
        Ok(found) => found.answer(),
        Err(e) => Along::Refused(u8::from(e)),
    }
}
