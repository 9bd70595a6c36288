// What a desk asks from C of a sheet of sync records; include/room.h declares it.
ghost use Rattle.std.specs.Prelude.{◌≡◌};
ghost use Rattle.sheet.specs.Sheet.{came_along};
ghost use Rattle.calls.specs.AlongWord.{in_word};

use crate::number::call_number;
use came_along::{Along, came_along};
use seats::SeatSet;

fn put_set(members: &mut u64, set: SeatSet)
    ensures { members.new ≡ set.bits }
{
    *members = set.bits;
}

// The set goes into the word lent; with a missing seat or a refusal the word stays.
#[tactic(auto, using(crate::proofs::AlongWords::along_laws))]
#[unsafe(no_mangle)]
pub extern "C" fn room_came_along(
    sheet: &[u8],
    view: &[u8],
    previous: u32,
    members: &mut u64,
) -> u32
    ensures { record { number = result; members = members.new }
        ≡ in_word members.old (came_along sheet.now view.now previous) }
{
    match came_along(sheet, view, previous) {
        Along::Refused(n) => call_number(0, n),
        Along::Missing(seat) => call_number(1 + u16::from(seat), 0),
        Along::Members(set) => {
            put_set(members, set);
            call_number(0, 0)
        }
    }
}
