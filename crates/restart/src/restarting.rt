// The states with which an office begins again, the same in every room, over any words of a table's length.
ghost use Rattle.std.specs.Prelude.{◌≡◌, IfOk};
ghost use Rattle.laws.specs.Checks.{first_of};
ghost use Rattle.records.specs.Refusals.{refusal_of};
ghost use Rattle.rules.specs.Refusals.{restart_checks};
ghost use Rattle.restart.specs.Marks.{marks_as};
ghost use Rattle.restart.specs.Restart.{restart_words};

use crate::marks::last_mark;
use records::Refusal;
use row::table::{WORDS, put_restarted};

// Check 1, then 18: the mark with which an office begins again.
#[tactic(auto, unfolding(rules::specs::Refusals::restart_checks))]
fn restart_mark(office: u8, last: Option<u32>) -> Result<u32, Refusal>
    ensures refused { refusal_of result ≡ first_of (restart_checks office (marks_as last).good) }
    ensures last { IfOk result (λ m. m ≡ (marks_as last).last) }
{
    if 15 < office {
        return Err(Refusal::Office);
    }
    last.ok_or(Refusal::File)
}

// Any office, any file, any words.
pub fn restart(office: u8, file: &[u8], table: &mut [u32]) -> Result<(), Refusal>
    ensures { record { refusal = refusal_of result; words = table.new }
        ≡ restart_words office file.now table.old }
{
    let mark = restart_mark(office, last_mark(file));
    if table.len() != WORDS {
        mark?;
        return Err(Refusal::State);
    }
    match mark {
        Ok(last) => {
            put_restarted(table, office, last);
            Ok(())
        }
        Err(refusal) => {
            put_restarted(table, 0, 0);
            Err(refusal)
        }
    }
}
