// One pass over a file of high marks: whether it passes 18, and the last whole mark. What stands behind the whole
// records is not looked at.
ghost use Rattle.std.specs.Prelude.{◌≡◌, ◌+◌, eqb, length};
ghost use Rattle.laws.specs.Upd.{ifb};
ghost use Rattle.records.specs.Layout.{high_length};
ghost use Rattle.rules.specs.MarkFile.{gap, may_follow};
ghost use Rattle.restart.specs.Marks.{high_after, marks_as, marks_in, marks_of};

use record_bytes::read;
use records::numbers::LIMIT;
use records::{High, layout};

// How far a mark reaches above the number for which it is written.
pub const GAP: u32 = 1_000_000;

// The longest file.
const FILE_LIMIT: usize = 2_001 * layout::HIGH_LENGTH;

// The number that the next mark must be above, L aside.
fn least(p: u32) -> u64
    ensures { result ≡ ifb (eqb p 0) 0 (p + gap) }
{
    if p == 0 {
        0
    } else {
        u64::from(p) + u64::from(GAP)
    }
}

// Whether a mark of number n may come after one of number p, 0 before the first.
#[tactic(auto, unfolding(rules::specs::MarkFile::may_follow))]
fn may_follow(p: u32, n: u32) -> bool
    ensures { result ≡ may_follow p n }
{
    (n <= LIMIT) & ((least(p) < u64::from(n)) | ((n == LIMIT) & (p < LIMIT)))
}

// The number of a record that is such a mark, where the one before it has number p.
fn high_after(p: u32, bytes: &[u8]) -> Option<u32>
    requires { length bytes.now ≡ high_length }
    ensures { result ≡ high_after p bytes.now }
{
    let Ok(high) = read::<High>(bytes) else {
        return None;
    };
    if (high.number == high.again) & may_follow(p, high.number) {
        Some(high.number)
    } else {
        None
    }
}

// The last mark of the whole records, 0 where there are none: at 0 an office begins; the first that is no mark ends it.
fn pass(file: &[u8]) -> Option<u32>
    ensures { marks_as result ≡ marks_in file.now }
{
    let mut last = 0;
    for bytes in file.chunks_exact(layout::HIGH_LENGTH) {
        last = high_after(last, bytes)?;
    }
    Some(last)
}

// The last whole mark of any file, 0 where there is none; none where the file is not good.
pub fn last_mark(file: &[u8]) -> Option<u32>
    ensures { marks_as result ≡ marks_of file.now }
{
    if file.len() <= FILE_LIMIT {
        pass(file)
    } else {
        None
    }
}
