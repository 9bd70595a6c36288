// Inner to the step and the program: the reading and the acting in turn, on a table that the caller made and keeps for
// the office handed in. Check 2 is known to pass, and so are 6 and 9 for the own office of the row. The program alone
// calls it; every other caller has step.
ghost use Rattle.std.specs.Prelude.{length};
ghost use Rattle.records.specs.Layout.{room_of};
ghost use Rattle.records.specs.Refusals.{refusal_of};
ghost use Rattle.rules.specs.Tables.{step_table};
ghost use Rattle.row.specs.Table.{table_of, SoundTable};
ghost use Rattle.step.specs.Answers.{written_of};
ghost use Rattle.step.specs.Held.{OfOffice, HeldStep};

use crate::checks::ROOM;
use crate::dispatch::act_read;
use events::read_event;
use records::Refusal;
pub use row::table::view_number;

// The step on the states that the table holds.
pub fn step_held(
    office: u8,
    table: &mut [u32],
    record: &[u8],
    out: &mut [u8],
) -> Result<usize, Refusal>
    requires { SoundTable table.old × OfOffice office table.old }
    ensures { HeldStep office (room_of «record».now)
        (step_table office (table_of table.old) «record».now (length out.old))
        out.old (refusal_of result) (written_of result) table.new out.new }
{
    let event = read_event(office, record)?;
    if out.len() < ROOM {
        return Err(Refusal::Output);
    }
    act_read(table, event, out)
}
