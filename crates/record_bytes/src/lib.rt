// The six kinds of record as bytes: a reader and a writer for all.
#![tactic(auto)]

ghost use Rattle.std.specs.Prelude.{◌≡◌, IfOk, length};
ghost use Rattle.records.specs.Refusals.{refusal_of};
ghost use Rattle.records.specs.Layout.{check_own};
ghost use Rattle.records.specs.Write.{Placed};

use own_checks::check_own;
use records::Refusal;

// Numbers as bytes, read and written.
mod bytes;

// What the reader asks first: the record's own mark and length.
mod own_checks;

// What a kind of record says of itself.
mod record;

// What an office is told of its seats.
pub mod reports;

// What an office proposes to the others.
pub mod proposals;

// Start notices: what an office tells its seats when a change begins.
pub mod notices;

// What an office tells its seats when offices agree.
pub mod views;

// What a desk sends the other desks after a start notice.
pub mod syncs;

// What an office keeps in its file before a record leaves.
pub mod highs;

pub use record::Record;

// A lone record, by checks 4 and 5 on its own mark and length.
pub fn read<R: Record>(bytes: &[u8]) -> Result<R, Refusal>
    ensures refused { refusal_of result ≡ check_own R.MARK R.LENGTH bytes.now }
    ensures read { IfOk result (λ r. r ≡ R.decoded bytes.now) }
{
    check_own::<R>(bytes)?;
    Ok(R::decode(bytes))
}

// The record at a place of the output, or nothing where it has no room there. The count of bytes written comes back.
pub fn write<R: Record>(out: &mut [u8], at: usize, r: R) -> usize
    ensures placed { Placed out.old at (R.encoded r) result out.new }
    ensures whole { length (R.encoded r) ≡ R.LENGTH }
{
    let n = r.size();
    let space = out.len().saturating_sub(at);
    if space < n {
        return 0;
    }
    r.put(out, at);
    n
}
