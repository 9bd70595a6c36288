// The two checks on a record's own mark and length; inner to this crate.
ghost use Rattle.std.specs.Prelude.{◌≡◌};
ghost use Rattle.records.specs.Refusals.{refusal_of};
ghost use Rattle.records.specs.Layout.{check_own};

use crate::record::Record;
use records::{Refusal, check_length, mark_value};

// Checks 4 and 5 on a record's own mark and its own length.
pub fn check_own<R: Record>(bytes: &[u8]) -> Result<(), Refusal>
    ensures { refusal_of result ≡ check_own R.MARK R.LENGTH bytes.now }
{
    if mark_value(bytes) != Some(u16::from_be_bytes(R::MARK)) {
        return Err(Refusal::Mark);
    }
    check_length(R::LENGTH, bytes)
}
