// Making a table: the fresh states of an office, one for each room, over any words of a table's length.
ghost use Rattle.std.specs.Prelude.{◌≡◌};
ghost use Rattle.records.specs.Refusals.{refusal_of};
ghost use Rattle.step.specs.Fresh.{fresh_words};

use events::office_refusal;
use records::Refusal;
use row::table::WORDS;

pub fn fresh(office: u8, table: &mut [u32]) -> Result<(), Refusal>
    ensures { record { refusal = refusal_of result; words = table.new } ≡ fresh_words office table.old }
{
    let made = office_refusal(office);
    if table.len() != WORDS {
        made?;
        return Err(Refusal::State);
    }
    row::table::put_restarted(table, if made.is_ok() { office } else { 0 }, 0);
    made
}
