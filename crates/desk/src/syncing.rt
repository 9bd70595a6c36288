// Making a sync record.
ghost use Rattle.std.specs.Prelude.{◌≡◌};
ghost use Rattle.records.specs.Write.{Placed};
ghost use Rattle.desk.specs.Syncing.{sync_of, sync_bytes};

use crate::checks::Desk;
use crate::seated::Seated;
use record_bytes::write;
use records::Sync;

impl Seated {
    #[tactic(auto, unfolding(crate::specs::Syncing::sync_of))]
    fn sync(self) -> Sync
        ensures { result ≡ sync_of self.desk }
    {
        let desk = self.desk;
        Sync {
            seat: desk.seat as u8,
            start: desk.start,
            previous: desk.view,
        }
    }
}

// The seat's sync record at the start of the output; nothing where the seat is above 63 or the record has no room.
// The count of bytes written comes back: Placed is of a count, and C gets it as it is.
#[tactic(auto, using(crate::proofs::SyncLaws::sync_made))]
pub fn make_sync(desk: Desk, out: &mut [u8]) -> usize
    ensures { Placed out.old 0 (sync_bytes desk) result out.new }
{
    let Ok(seat) = desk.seated() else {
        return 0;
    };
    write(out, 0, seat.sync())
}
